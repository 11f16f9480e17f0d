//! Registrations that end, each with its key among those of its node.

ghost use Rattle.std.specs.Prelude.{◌≡◌, ◌≢◌, ℕ, ◌==◌, not, [], List, length, filter, Some, None, nat_eq, option_map, if◌then◌else◌, true, false, slice_set};
ghost use Rattle.std.specs.Option.{option_copied};
ghost use Rattle.std.specs.Map.{lookup, keys_of};
ghost use Rattle.indexmap.specs.IndexMap.{IsUnique};
ghost use Rattle.dom_model.specs.PlainLists.Lists.{among};
ghost use Rattle.dom_observe.specs.Watchers.{on};
ghost use Rattle.dom_observe.specs.Registrations.{plain, at, in_table, listed, is_live, unless_ended, unless_ending, of_kind, AllLive, Between, ending_node, lasts_for, passes_for, Owned, HaveKeys, KeysLeft, ByOrigin, Swept};
ghost use Rattle.dom_observe.specs.NodeOrder.{MayGoLast};
ghost use Rattle.dom_observe.specs.Invariant.{AllThere, HaveNone};
ghost use Rattle.dom_observe.specs.Turns.{turn_at, Rises, Fewer};
ghost use Rattle.dom_observe.specs.Roster.{lasting_by, passing_by, queues_by, is_there, passing_at};

use crate::node_keys::NodeKeys;
use crate::observer_id::ObserverId;
use crate::registration::{EndedRegistrations, Ending, Lifetime, Registration};
use crate::registration_table::{cut, place_of};
use crate::registrations::Registrations;
use crate::roster::{Observer, Roster};
use dom_tree::NodeId;
use indexmap::{IndexMap, IndexSet};
use slab::Slab;

// The node of what stands under a key, where that ends.
fn ending_node(registration: Option<&Registration>, ending: &Ending) -> Option<NodeId>
    ensures { result
        ≡ ending_node ending.now (option_map plain (option_copied registration.entry)) }
{
    match registration {
        Some(registration) if ending.ends(registration) => Some(registration.node),
        _ => None,
    }
}

// Takes out the registration under a key, where it ends.
fn take_out(table: &mut Slab<Registration>, key: usize, ending: &Ending)
    ensures left { (k : ℕ) → in_table table.new k ≡ (if k == key
        then unless_ending ending.now (in_table table.old k) else in_table table.old k) }
    ensures fewer { Fewer table.old table.new }
{
    if ending_node(table.get(key), ending).is_some() {
        let _ = table.try_remove(key);
    }
}

// Takes out those under several keys that end.
fn take_out_each(table: &mut Slab<Registration>, keys: &[usize], ending: &Ending)
    ensures left { (k : ℕ) → in_table table.new k ≡ (if among k keys.now
        then unless_ending ending.now (in_table table.old k) else in_table table.old k) }
    ensures fewer { Fewer table.old table.new }
{
    for key in keys {
        take_out(table, *key, ending);
    }
}

// Takes out those under a node's keys that end, with their keys, and answers whether none is left.
fn end_keys(table: &mut Slab<Registration>, keys: &mut NodeKeys, ending: &Ending) -> bool
    ensures left { (k : ℕ) → in_table table.new k ≡ (if among k keys.old.items
        then unless_ending ending.now (in_table table.old k) else in_table table.old k) }
    ensures fewer { Fewer table.old table.new }
    ensures kept { keys.new.items ≡ filter (is_live (in_table table.new)) keys.old.items }
    ensures bare { result ≡ (length keys.new.items == 0) }
{
    take_out_each(table, keys.as_slice(), ending);
    keys.prune(table);
    keys.is_empty()
}

// The same of a node.
pub(crate) fn end_keys_on(
    table: &mut Slab<Registration>,
    nodes: &mut IndexMap<u32, NodeKeys>,
    node: NodeId,
    ending: &Ending,
) -> bool
    requires { IsUnique nat_eq nodes.old }
    ensures left { (k : ℕ) → in_table table.new k
        ≡ (if among k (on node (listed nodes.old.entries))
        then unless_ending ending.now (in_table table.old k) else in_table table.old k) }
    ensures fewer { Fewer table.old table.new }
    ensures keys { KeysLeft node (is_live (in_table table.new)) (listed nodes.old.entries)
        (listed nodes.new.entries) result }
    ensures unique { IsUnique nat_eq nodes.new }
{
    match nodes.get_mut(&node.number()) {
        Some(keys) => end_keys(table, keys, ending),
        None => false,
    }
}

// Takes out the registration under one of a node's keys, with its key, and answers whether none is left.
fn end_key(table: &mut Slab<Registration>, keys: &mut NodeKeys, key: usize) -> bool
    requires rising { Rises (turn_at table.old) keys.old.items }
    requires live { AllLive (in_table table.old) keys.old.items }
    requires there { among key keys.old.items ≡ true }
    ensures left { (k : ℕ) → in_table table.new k
        ≡ (if k == key then None else in_table table.old k) }
    ensures fewer { Fewer table.old table.new }
    ensures kept { keys.new.items ≡ filter (is_live (in_table table.new)) keys.old.items }
    ensures bare { result ≡ (length keys.new.items == 0) }
{
    let place = place_of(table, keys.as_slice(), key);
    keys.remove(place);
    let _ = table.try_remove(key);
    keys.is_empty()
}

// The same of a key of a node.
pub(crate) fn end_key_on(
    table: &mut Slab<Registration>,
    nodes: &mut IndexMap<u32, NodeKeys>,
    node: NodeId,
    key: usize,
) -> bool
    requires unique { IsUnique nat_eq nodes.old }
    requires rising { Rises (turn_at table.old) (on node (listed nodes.old.entries)) }
    requires live { AllLive (in_table table.old) (on node (listed nodes.old.entries)) }
    requires there { among key (on node (listed nodes.old.entries)) ≡ true }
    ensures left { (k : ℕ) → in_table table.new k
        ≡ (if k == key then None else in_table table.old k) }
    ensures fewer { Fewer table.old table.new }
    ensures keys { KeysLeft node (is_live (in_table table.new)) (listed nodes.old.entries)
        (listed nodes.new.entries) result }
    ensures nodes { keys_of (listed nodes.new.entries) ≡ keys_of (listed nodes.old.entries) }
    ensures unique { IsUnique nat_eq nodes.new }
{
    match nodes.get_mut(&node.number()) {
        Some(keys) => end_key(table, keys, key),
        None => false,
    }
}

// Takes out a node that is left without keys. The last takes its place.
pub(crate) fn leave_out(nodes: &mut IndexMap<u32, NodeKeys>, node: NodeId, is_bare: bool)
    requires unique { IsUnique nat_eq nodes.old }
    requires bare { is_bare ≡ true → on node (listed nodes.old.entries) ≡ [] }
    requires some { is_bare ≡ false → (keys : List ℕ) →
        lookup (nat_eq node) (listed nodes.old.entries) ≡ Some keys → keys ≢ [] }
    ensures kept { (n : ℕ) → on n (listed nodes.new.entries) ≡ on n (listed nodes.old.entries) }
    ensures full { (lists : List (ℕ × List ℕ)) → HaveKeys lists → ((n : ℕ) → n ≢ node →
        lookup (nat_eq n) (listed nodes.old.entries) ≡ lookup (nat_eq n) lists) →
        HaveKeys (listed nodes.new.entries) }
    ensures nodes { MayGoLast node (listed nodes.old.entries) (listed nodes.new.entries) }
    ensures unique { IsUnique nat_eq nodes.new }
{
    if is_bare {
        let _ = nodes.swap_remove(&node.number());
    }
}

impl Registrations {
    // Takes out those under several keys that end, and on their nodes the others that do. Each node's keys are gone through once.
    fn end_among(&mut self, keys: &[usize], ending: &Ending)
        ensures between { (k : ℕ) → Between ending.now (at self.old k) (at self.new k) }
        ensures done { (k : ℕ) → among k keys.now ≡ true
            → at self.new k ≡ unless_ending ending.now (at self.old k) }
        ensures swept { Swept self.old self.new }
    {
        self.state_law();
        for key in keys {
            self.state_law();
            if let Some(node) = ending_node(self.get(*key), ending) {
                self.end_on(node, ending);
            }
        }
    }

    // Takes out those under several keys that end, one by one.
    fn end_each(&mut self, keys: &[usize], ending: &Ending)
        ensures between { (k : ℕ) → Between ending.now (at self.old k) (at self.new k) }
        ensures done { (k : ℕ) → among k keys.now ≡ true
            → at self.new k ≡ unless_ending ending.now (at self.old k) }
        ensures swept { Swept self.old self.new }
    {
        self.state_law();
        for key in keys {
            if let Some(node) = ending_node(self.get(*key), ending) {
                self.end_one(node, *key);
            }
        }
    }

    // Ends those of an observer by its keys, and leaves it the keys of those that stay.
    pub(crate) fn end_own(&mut self, keys: &mut Vec<usize>, ending: &Ending)
        requires { (k : ℕ) → among k keys.old.items
            ≡ of_kind ending.now.lifetime ending.now.observer (at self.old k) }
        ensures left { (k : ℕ) → at self.new k ≡ (if among k keys.old.items
            then unless_ended ending.now.ended (at self.old k) else at self.old k) }
        ensures swept { Swept self.old self.new }
        ensures keys { keys.new.items ≡ filter (is_live (at self.new)) keys.old.items }
    {
        self.end_each(keys.as_slice(), ending);
        self.prune(keys);
    }

    // Ends the transient ones of an observer that come from a node, by its keys, which stand by where theirs come from. The others are not gone through.
    pub(crate) fn end_from(&mut self, keys: &mut Vec<usize>, observer: ObserverId, node: NodeId)
        requires owned { (k : ℕ) → among k keys.old.items ≡ passes_for observer (at self.old k) }
        requires ordered { ByOrigin (at self.old) keys.old.items }
        ensures left { (k : ℕ) → at self.new k ≡ (if among k keys.old.items
            then unless_ended (EndedRegistrations.From observer node) (at self.old k) else at self.old k) }
        ensures swept { Swept self.old self.new }
        ensures keys { keys.new.items ≡ filter (is_live (at self.new)) keys.old.items }
    {
        let ending = Ending {
            observer: Some(observer),
            lifetime: Lifetime::Passing,
            ended: EndedRegistrations::From(observer, node),
        };
        let first = self.place_from(keys.as_slice(), node);
        let end = first + self.place_past(&keys[first..], node);
        self.end_each(&keys[first..end], &ending);
        cut(keys, first, end);
    }

    // Ends all of an observer: those that last, and then its transient ones.
    pub(crate) fn end_all(&mut self, kept: &mut Observer, observer: ObserverId)
        requires lasting { (k : ℕ) → among k kept.old.lasting.items
            ≡ lasts_for observer (at self.old k) }
        requires passing { (k : ℕ) → among k kept.old.passing.items
            ≡ passes_for observer (at self.old k) }
        ensures left { (k : ℕ) → at self.new k ≡ unless_ended (EndedRegistrations.Of observer) (at self.old k) }
        ensures swept { Swept self.old self.new }
        ensures lasting { kept.new.lasting.items ≡ [] }
        ensures passing { kept.new.passing.items ≡ [] }
        ensures queue { kept.new.queue ≡ kept.old.queue }
    {
        let lasting = Ending {
            observer: Some(observer),
            lifetime: Lifetime::Lasting,
            ended: EndedRegistrations::Of(observer),
        };
        self.end_own(&mut kept.lasting, &lasting);
        let passing = Ending {
            observer: Some(observer),
            lifetime: Lifetime::Passing,
            ended: EndedRegistrations::Of(observer),
        };
        self.end_own(&mut kept.passing, &passing);
    }

    // Takes out every transient one, by the keys that several observers have of theirs.
    fn end_passing(&mut self, roster: &Roster, fleeting: &IndexSet<ObserverId>)
        requires there { AllThere (is_there roster.now) fleeting.now.keys }
        requires owned { Owned passes_for (at self.old) (passing_by roster.now) }
        requires all { HaveNone fleeting.now.keys (passing_by roster.now) }
        ensures left { (k : ℕ) → at self.new k ≡ unless_ended EndedRegistrations.Transient (at self.old k) }
        ensures swept { Swept self.old self.new }
    {
        self.state_law();
        let ending = Ending {
            observer: None,
            lifetime: Lifetime::Passing,
            ended: EndedRegistrations::Transient,
        };
        for index in 0..fleeting.len() {
            if let Some(observer) = fleeting.get_index(index) {
                let kept = roster.get(*observer);
                self.end_among(kept.passing.as_slice(), &ending);
            }
        }
    }

    // Ends every transient one, where several observers are those that have any.
    pub(crate) fn end_transients(&mut self, roster: &mut Roster, fleeting: &IndexSet<ObserverId>)
        requires there { AllThere (is_there roster.old) fleeting.now.keys }
        requires owned { Owned passes_for (at self.old) (passing_by roster.old) }
        requires all { HaveNone fleeting.now.keys (passing_by roster.old) }
        ensures left { (k : ℕ) → at self.new k ≡ unless_ended EndedRegistrations.Transient (at self.old k) }
        ensures swept { Swept self.old self.new }
        ensures none { (o : ℕ) → passing_at roster.new o ≡ [] }
        ensures owned { Owned passes_for (at self.new) (passing_by roster.new) }
        ensures lasting { lasting_by roster.new ≡ lasting_by roster.old }
        ensures queues { queues_by roster.new ≡ queues_by roster.old }
    {
        self.end_passing(roster, fleeting);
        forget_all_passing(roster, fleeting);
    }
}

// Leaves an observer no keys of transient registrations.
fn forget_passing(roster: &mut Roster, observer: ObserverId)
    requires { is_there roster.old observer ≡ true }
    ensures keys { passing_by roster.new ≡ slice_set (passing_by roster.old) observer [] }
    ensures lasting { lasting_by roster.new ≡ lasting_by roster.old }
    ensures queues { queues_by roster.new ≡ queues_by roster.old }
{
    let kept = roster.get_mut(observer);
    kept.passing.clear();
}

// Leaves no observer keys of transient registrations, where several are those that have any.
fn forget_all_passing(roster: &mut Roster, fleeting: &IndexSet<ObserverId>)
    requires there { AllThere (is_there roster.old) fleeting.now.keys }
    requires all { HaveNone fleeting.now.keys (passing_by roster.old) }
    ensures none { (o : ℕ) → passing_at roster.new o ≡ [] }
    ensures lasting { lasting_by roster.new ≡ lasting_by roster.old }
    ensures queues { queues_by roster.new ≡ queues_by roster.old }
{
    for index in 0..fleeting.len() {
        if let Some(observer) = fleeting.get_index(index) {
            forget_passing(roster, *observer);
        }
    }
}
