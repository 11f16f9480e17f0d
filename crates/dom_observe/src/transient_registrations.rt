//! Adding transient registrations, and the registrations of a node's ancestors.

ghost use Rattle.std.specs.Prelude.{◌≡◌, ◌≢◌, ◌==◌, ◌++◌, ℕ, Bool, List, None, OnOk, OnErr, IfOk, drop, take, length, filter, flat_map, if◌then◌else◌, is_some, option_map, true, false};
ghost use Rattle.std.specs.Option.{option_map_or};
ghost use Rattle.std.specs.List.{AllByRecursion};
ghost use Rattle.std.specs.Map.{keys_of};
ghost use Rattle.dom_model.specs.Forests.Forest.{HasNode, ancestors};
ghost use Rattle.dom_model.specs.Worlds.World.{Registration as PlainRegistration};
ghost use Rattle.dom_observe.specs.Watchers.{on};
ghost use Rattle.dom_observe.specs.NodeOrder.{MayComeLast, MayGoLast};
ghost use Rattle.dom_observe.specs.Invariant.{IsIndexed, AreRegistered, registered_nodes};
ghost use Rattle.dom_observe.specs.Roster.{lasting_by, passing_by, queues_by, is_there};
ghost use Rattle.dom_observe.specs.Registrations.{plain, at, found, AllLive, HasRegistration, StandsOn, AllStand, Swept, HaveKeys, HaveSources, Agree, deep_at, gives_transient, transient_under, with_added_transients};
ghost use Rattle.dom_observe.specs.GetsTransients.{GetsTransients};
ghost use Rattle.dom_observe.specs.QueuedNodes.{names_one, NamesNone};
ghost use Rattle.dom_observe.specs.Origins.{NotesIfAny};

use crate::observer_id::ObserverId;
use crate::origins::Origins;
use crate::queue_record::mark_pending;
use crate::registration::Registration;
use crate::registrations::Registrations;
use crate::roster::Roster;
use dom_tree::{NodeId, Tree};
use indexmap::IndexSet;
use std::alloc::{AllocError, Global};

// Returns whether a node with these keys gets a transient registration from another: that has subtree, and the node has none of its observer and
// origin.
fn gives(
    registrations: &Registrations,
    own: &[usize],
    origins: &Origins,
    registration: &Registration,
) -> bool
    requires { NotesIfAny (at registrations.now) own.now origins.now.noted }
    ensures { result ≡ gives_transient (at registrations.now) own.now (plain registration.now) }
{
    let origin = registration.origin();
    registration.options.subtree()
        && !origins.has(registrations, own, registration.observer, origin)
}

// Returns the transient registration that a node with these keys gets from the one under a key.
fn transient_of(
    registrations: &Registrations,
    own: &[usize],
    origins: &Origins,
    key: usize,
    node: NodeId,
) -> Result<Option<Registration>, AllocError>
    requires { NotesIfAny (at registrations.now) own.now origins.now.noted }
    ensures { IfOk result (λ made. option_map plain made
        ≡ transient_under (at registrations.now) own.now node key) }
{
    match registrations.get(key) {
        Some(registration) if gives(registrations, own, origins, registration) => {
            Ok(Some(registration.transient(node)?))
        }
        _ => Ok(None),
    }
}

// Adds a transient registration to a node for each registration with subtree under the keys, once for each observer and origin. After an error some
// are missing.
fn add_each_transient(
    registrations: &mut Registrations,
    roster: &mut Roster,
    fleeting: &mut IndexSet<ObserverId>,
    standing: &[usize],
    node: NodeId,
    alloc: Global,
) -> Result<(), AllocError>
    requires standing { AllLive (at registrations.old) standing.now }
    requires there { AllByRecursion (HasRegistration (at registrations.old) (is_there roster.old))
        standing.now }
    ensures ok { OnOk result ((n : ℕ) → found registrations.new (on n registrations.new.lists)
        ≡ with_added_transients node (found registrations.old standing.now) n
        (found registrations.old (on n registrations.old.lists))) }
    ensures added { GetsTransients (found registrations.old (on node registrations.old.lists))
        (found registrations.new (on node registrations.new.lists)) }
    ensures elsewhere { (n : ℕ) → n ≢ node →
        found registrations.new (on n registrations.new.lists)
        ≡ found registrations.old (on n registrations.old.lists) }
    ensures nodes { MayComeLast node registrations.old.lists registrations.new.lists }
    ensures stay { AllByRecursion (λ key. at registrations.new key ≡ at registrations.old key)
        standing.now }
    ensures all_stand { (p : ℕ → Bool) →
        AllByRecursion (HasRegistration (at registrations.old) p) standing.now →
        AllStand (at registrations.old) p registrations.old.lists →
        AllStand (at registrations.new) p registrations.new.lists }
    ensures names { (p : ℕ → Bool) → p node ≡ false →
        AllByRecursion (λ key. names_one p (at registrations.old key) ≡ false) standing.now →
        NamesNone p (at registrations.old) registrations.old.lists →
        NamesNone p (at registrations.new) registrations.new.lists }
    ensures indexed { (lasts : List (List ℕ)) (p : ℕ → Bool) →
        AllByRecursion (HasRegistration (at registrations.old) p) standing.now →
        IsIndexed (at registrations.old) lasts (passing_by roster.old) fleeting.old.keys p →
        IsIndexed (at registrations.new) lasts (passing_by roster.new) fleeting.new.keys p }
    ensures sources { HaveSources (at registrations.old) → HaveSources (at registrations.new) }
    ensures agree { Agree (at registrations.old) → Agree (at registrations.new) }
    ensures lasting { lasting_by roster.new ≡ lasting_by roster.old }
    ensures queues { queues_by roster.new ≡ queues_by roster.old }
    ensures sound { AreRegistered registrations.new }
{
    registrations.state_law();
    let mut origins = Origins::new(
        registrations,
        registrations.keys_on(node),
        standing.len(),
        alloc,
    )?;
    for key in standing {
        if let Some(made) = transient_of(
            registrations,
            registrations.keys_on(node),
            &origins,
            *key,
            node,
        )? {
            let observer = made.observer;
            let origin = made.origin();
            origins.note(observer, origin)?;
            mark_pending(fleeting, observer)?;
            let kept = roster.get_mut(observer);
            let place = registrations.place_past(kept.passing.as_slice(), origin);
            registrations.add(&mut kept.passing, place, made, alloc)?;
            registrations.state_law();
        }
    }
    Ok(())
}

// Ends the transient registration on a node that is under a key, and removes the key from those of its observer. It takes no memory.
fn end_transient(registrations: &mut Registrations, roster: &mut Roster, node: NodeId, key: usize)
    requires stand { StandsOn (at registrations.old) (is_there roster.old) node key }
    requires passing { option_map_or (λ r. is_some r.source) (at registrations.old key) false
        ≡ true }
    ensures left { (k : ℕ) → at registrations.new k
        ≡ (if k == key then None else at registrations.old k) }
    ensures swept { Swept registrations.old registrations.new }
    ensures nodes { MayGoLast node registrations.old.lists registrations.new.lists }
    ensures indexed { (lasts : List (List ℕ)) (some : List ℕ) (p : ℕ → Bool) →
        IsIndexed (at registrations.old) lasts (passing_by roster.old) some p →
        IsIndexed (at registrations.new) lasts (passing_by roster.new) some p }
    ensures lasting { lasting_by roster.new ≡ lasting_by roster.old }
    ensures queues { queues_by roster.new ≡ queues_by roster.old }
{
    let observer = registrations.get(key).unwrap().observer;
    let kept = roster.get_mut(observer);
    registrations.end_one(node, key);
    registrations.prune(&mut kept.passing);
}

// Ends the last registrations on a node, which are transient, from the last until so many are left. It takes no memory. If they were added since the
// node had so many, the nodes stand in the order from before.
pub(crate) fn end_added(
    registrations: &mut Registrations,
    roster: &mut Roster,
    node: NodeId,
    count: usize,
)
    requires stand { AllStand (at registrations.old) (is_there roster.old) registrations.old.lists }
    requires passing { AllByRecursion (λ (r : PlainRegistration). is_some r.source ≡ true)
        (drop count (found registrations.old (on node registrations.old.lists))) }
    ensures kept { found registrations.new (on node registrations.new.lists)
        ≡ take count (found registrations.old (on node registrations.old.lists)) }
    ensures nodes { (before : List (ℕ × List ℕ)) → HaveKeys before → length (on node before) ≡ count →
        MayComeLast node before registrations.old.lists → keys_of registrations.new.lists ≡ keys_of before }
    ensures elsewhere { (n : ℕ) → n ≢ node →
        found registrations.new (on n registrations.new.lists)
        ≡ found registrations.old (on n registrations.old.lists) }
    ensures all_stand { (p : ℕ → Bool) → AllStand (at registrations.old) p registrations.old.lists →
        AllStand (at registrations.new) p registrations.new.lists }
    ensures names { (p : ℕ → Bool) → NamesNone p (at registrations.old) registrations.old.lists →
        NamesNone p (at registrations.new) registrations.new.lists }
    ensures indexed { (lasts : List (List ℕ)) (some : List ℕ) (p : ℕ → Bool) →
        IsIndexed (at registrations.old) lasts (passing_by roster.old) some p →
        IsIndexed (at registrations.new) lasts (passing_by roster.new) some p }
    ensures sources { HaveSources (at registrations.old) → HaveSources (at registrations.new) }
    ensures agree { Agree (at registrations.old) → Agree (at registrations.new) }
    ensures lasting { lasting_by roster.new ≡ lasting_by roster.old }
    ensures queues { queues_by roster.new ≡ queues_by roster.old }
    ensures sound { AreRegistered registrations.new }
{
    registrations.state_law();
    'added: while registrations.keys_on(node).len() > count {
        let keys = registrations.keys_on(node);
        let key = keys[keys.len() - 1];
        end_transient(registrations, roster, node, key);
        registrations.state_law();
    }
}

// Adds a transient registration to a node for each registration with subtree under the keys, once for each observer and origin. After an error the
// nodes have the registrations that they had, in the same order.
pub(crate) fn add_transients(
    registrations: &mut Registrations,
    roster: &mut Roster,
    fleeting: &mut IndexSet<ObserverId>,
    standing: &[usize],
    node: NodeId,
    alloc: Global,
) -> Result<(), AllocError>
    requires standing { AllLive (at registrations.old) standing.now }
    requires there { AllByRecursion (HasRegistration (at registrations.old) (is_there roster.old))
        standing.now }
    requires stand { AllStand (at registrations.old) (is_there roster.old) registrations.old.lists }
    ensures ok { OnOk result ((n : ℕ) → found registrations.new (on n registrations.new.lists)
        ≡ with_added_transients node (found registrations.old standing.now) n
        (found registrations.old (on n registrations.old.lists))) }
    ensures added { OnOk result (GetsTransients (found registrations.old (on node registrations.old.lists))
        (found registrations.new (on node registrations.new.lists))) }
    ensures nodes { OnOk result (MayComeLast node registrations.old.lists registrations.new.lists) }
    ensures stay { OnOk result (AllByRecursion (λ key. at registrations.new key
        ≡ at registrations.old key) standing.now) }
    ensures err { OnErr result (registered_nodes registrations.new ≡ registered_nodes registrations.old) }
    ensures all_stand { (p : ℕ → Bool) →
        AllByRecursion (HasRegistration (at registrations.old) p) standing.now →
        AllStand (at registrations.old) p registrations.old.lists →
        AllStand (at registrations.new) p registrations.new.lists }
    ensures names { (p : ℕ → Bool) → p node ≡ false →
        AllByRecursion (λ key. names_one p (at registrations.old key) ≡ false) standing.now →
        NamesNone p (at registrations.old) registrations.old.lists →
        NamesNone p (at registrations.new) registrations.new.lists }
    ensures indexed { (lasts : List (List ℕ)) (p : ℕ → Bool) →
        AllByRecursion (HasRegistration (at registrations.old) p) standing.now →
        IsIndexed (at registrations.old) lasts (passing_by roster.old) fleeting.old.keys p →
        IsIndexed (at registrations.new) lasts (passing_by roster.new) fleeting.new.keys p }
    ensures sources { HaveSources (at registrations.old) → HaveSources (at registrations.new) }
    ensures agree { Agree (at registrations.old) → Agree (at registrations.new) }
    ensures lasting { lasting_by roster.new ≡ lasting_by roster.old }
    ensures queues { queues_by roster.new ≡ queues_by roster.old }
    ensures sound { AreRegistered registrations.new }
{
    registrations.state_law();
    let count = registrations.keys_on(node).len();
    if let Err(error) = add_each_transient(registrations, roster, fleeting, standing, node, alloc) {
        end_added(registrations, roster, node, count);
        return Err(error);
    }
    Ok(())
}

// Appends keys; copies nothing if there are none, as at most nodes.
#[inline(always)]
fn push_all(keys: &mut Vec<usize>, more: &[usize]) -> Result<(), AllocError>
    ensures { OnOk result (keys.new.items ≡ keys.old.items ++ more.now) }
{
    if more.is_empty() {
        return Ok(());
    }
    keys.extend_from_slice(more)
}

// Returns the keys of the registrations at a node's inclusive ancestors, from the node upwards.
pub(crate) fn find_standing<X>(
    registrations: &Registrations,
    tree: &Tree<X>,
    node: NodeId,
    keys: &mut Vec<usize>,
) -> Result<(), AllocError>
    requires { HasNode tree.now.forest node }
    ensures { OnOk result (keys.new.items ≡ flat_map (λ n. on n registrations.now.lists)
        (ancestors node tree.now.forest)) }
{
    tree.state_law();
    keys.clear();
    let mut here = tree.at(node);
    loop {
        push_all(keys, registrations.keys_on(here.number()))?;
        match here.parent() {
            Some(parent) => here = parent,
            None => return Ok(()),
        }
    }
}

// Returns whether the registration under a key has subtree.
fn is_deep(registrations: &Registrations, key: usize) -> bool
    ensures { result ≡ deep_at (at registrations.now) key }
{
    match registrations.get(key) {
        Some(registration) => registration.options.subtree(),
        None => false,
    }
}

// Appends the keys whose registrations have subtree.
fn push_deep(
    keys: &mut Vec<usize>,
    registrations: &Registrations,
    own: &[usize],
) -> Result<(), AllocError>
    ensures { OnOk result (keys.new.items ≡ keys.old.items
        ++ filter (deep_at (at registrations.now)) own.now) }
{
    for key in own {
        if is_deep(registrations, *key) {
            keys.push(*key)?;
        }
    }
    Ok(())
}

// Returns the keys of the registrations with subtree at a node's inclusive ancestors, from the node upwards.
pub(crate) fn find_standing_deep<X>(
    registrations: &Registrations,
    tree: &Tree<X>,
    node: NodeId,
    keys: &mut Vec<usize>,
) -> Result<(), AllocError>
    requires { HasNode tree.now.forest node }
    ensures { OnOk result (keys.new.items ≡ flat_map
        (λ n. filter (deep_at (at registrations.now)) (on n registrations.now.lists))
        (ancestors node tree.now.forest)) }
{
    tree.state_law();
    keys.clear();
    let mut here = tree.at(node);
    loop {
        push_deep(keys, registrations, registrations.keys_on(here.number()))?;
        match here.parent() {
            Some(parent) => here = parent,
            None => return Ok(()),
        }
    }
}
