//! The registrations, by their keys and by the nodes that they stand on.

ghost use Rattle.std.specs.Prelude.{◌≡◌, ◌≢◌, ℕ, ◌≤◌, ◌==◌, [], length, filter, find, count_by, is_some, None, option_map, OnOk, OnErr, if◌then◌else◌, true};
ghost use Rattle.std.specs.Option.{option_copied};
ghost use Rattle.std.specs.List.{list_any};
ghost use Rattle.std.specs.Map.{keys_of};
ghost use Rattle.dom_model.specs.PlainLists.Lists.{among};
ghost use Rattle.dom_model.specs.PlainLists.LastOnce.{with_last};
ghost use Rattle.dom_model.specs.Forests.Forest.{inclusive_descendants};
ghost use Rattle.dom_observe.specs.Watchers.{on};
ghost use Rattle.dom_observe.specs.Registrations.{plain, at, is_live, is_on_node, own_at, unless_ending, with_new_options, origin_at, Added, NewKey, ByOrigin, IsFirstFrom, IsPast, Swept};
ghost use Rattle.dom_observe.specs.NodeOrder.{MayGoLast};
ghost use Rattle.dom_observe.specs.Invariant.{AreRegistered};

use crate::filter::Interests;
use crate::node_keys::{NodeKeys, put_key};
use crate::observer_id::ObserverId;
use crate::registration::{Ending, Registration};
use crate::registration_removal::{end_key_on, end_keys_on, leave_out};
use crate::registration_table::{next_turn, prune, set_options};
use dom_tree::{NodeId, Tree};
use indexmap::IndexMap;
use slab::Slab;
use std::alloc::{AllocError, Global};
use std::marker::Model;
use std::rc::Rc;

// Registrations under keys, and for each node with any the keys of those on it, in their order.
#[derive(Drop)]
pub(crate) struct Registrations {
    table: Slab<Registration>,
    // no entry where there is none
    nodes: IndexMap<u32, NodeKeys>,
}

impl Model for Registrations {
    ghost use Rattle.dom_observe.specs.Registrations.{Registered, registered_view};
    ghost use Rattle.dom_observe.specs.Invariant.{AreRegistered};

    ghost Value = { Registered };

    ghost view = { λ r. registered_view r.table r.nodes.entries };

    ghost invariant = { λ r. AreRegistered (registered_view r.table r.nodes.entries) };
}

impl Registrations {
    // None.
    pub(crate) fn new(alloc: Global) -> Registrations
        ensures { result ≡ record { rows = []; lists = [] } }
    {
        Registrations {
            table: Slab::new(alloc),
            nodes: IndexMap::new(alloc),
        }
    }

    // How many there are.
    pub(crate) fn len(&self) -> usize
        ensures { result ≡ count_by is_some self.now.rows }
    {
        self.table.len()
    }

    // Whether there is none.
    pub(crate) fn is_empty(&self) -> bool
        ensures { result ≡ (length self.now.lists == 0) }
    {
        self.nodes.is_empty()
    }

    // The one under a key.
    #[inline(always)]
    pub(crate) fn get(&self, key: usize) -> Option<&Registration>
        ensures { option_map plain (option_copied result) ≡ at self.now key }
    {
        self.table.get(key)
    }

    // The keys of those on a node.
    #[inline(always)]
    pub(crate) fn keys_on(&self, node: NodeId) -> &[usize]
        ensures { result.now ≡ on node self.now.lists }
    {
        match self.nodes.get(&node.number()) {
            Some(keys) => keys.as_slice(),
            None => &[],
        }
    }

    // Whether one stands on a node.
    pub(crate) fn stand_on(&self, node: NodeId) -> bool
        ensures { result ≡ among node (keys_of self.now.lists) }
    {
        self.nodes.contains_key(&node.number())
    }

    // Whether one stands on a node inside another. It asks each node with any.
    pub(crate) fn stand_inside<X>(&self, tree: &Tree<X>, top: NodeId) -> bool
        ensures { result ≡ list_any (λ m. among m (inclusive_descendants tree.now.forest top))
            (keys_of self.now.lists) }
    {
        self.nodes
            .keys()
            .any(|number| tree.is_inside(top, NodeId::new(*number)))
    }

    // The node in a place among those with any, as long as there is one.
    pub(crate) fn node_at(&self, index: usize) -> Option<NodeId> {
        let (number, _) = self.nodes.get_index(index)?;
        Some(NodeId::new(*number))
    }

    // Whether the observer's registration on the node is under the key.
    fn is_own(&self, key: usize, observer: ObserverId, node: NodeId) -> bool
        ensures { result ≡ own_at (at self.now) observer node key }
    {
        match self.get(key) {
            Some(registration) => registration.is_own(observer, node),
            None => false,
        }
    }

    // The first of the keys under which the observer's registration on the node is.
    fn first_own(&self, keys: &[usize], observer: ObserverId, node: NodeId) -> Option<usize>
        ensures { result ≡ find (own_at (at self.now) observer node) keys.now }
    {
        keys.iter()
            .copied()
            .find(|key| self.is_own(*key, observer, node))
    }

    // The key of the observer's registration on the node, by the keys of the node and those of the observer that last: it goes through the fewer.
    pub(crate) fn own_key(
        &self,
        lasting: &[usize],
        observer: ObserverId,
        node: NodeId,
    ) -> Option<usize>
        requires either { (key : ℕ) → own_at (at self.now) observer node key ≡ true →
            among key (on node self.now.lists) ≡ among key lasting.now }
        requires one { (key other : ℕ) → own_at (at self.now) observer node key ≡ true →
            own_at (at self.now) observer node other ≡ true → other ≡ key }
        ensures { result ≡ find (own_at (at self.now) observer node) (on node self.now.lists) }
    {
        let keys = self.keys_on(node);
        if lasting.len() < keys.len() {
            self.first_own(lasting, observer, node)
        } else {
            self.first_own(keys, observer, node)
        }
    }

    // Where the one under a key comes from.
    fn origin_at(&self, key: usize) -> u32
        ensures { result ≡ origin_at (at self.now) key }
    {
        match self.get(key) {
            Some(registration) => registration.origin().number(),
            None => 0,
        }
    }

    // The place of the first key of what comes from a node or a higher one, among keys that stand by where theirs comes from.
    pub(crate) fn place_from(&self, keys: &[usize], node: NodeId) -> usize
        ensures inside { result ≤ length keys.now }
        ensures place { ByOrigin (at self.now) keys.now →
            IsFirstFrom (at self.now) node keys.now result }
    {
        let number = node.number();
        keys.partition_point(|key| self.origin_at(*key) < number)
    }

    // The place behind the last key of what comes from a node or a lower one.
    pub(crate) fn place_past(&self, keys: &[usize], node: NodeId) -> usize
        ensures inside { result ≤ length keys.now }
        ensures place { ByOrigin (at self.now) keys.now →
            IsPast (at self.now) node keys.now result }
    {
        let number = node.number();
        keys.partition_point(|key| self.origin_at(*key) <= number)
    }

    // Takes out the keys under which nothing is left.
    pub(crate) fn prune(&self, keys: &mut Vec<usize>)
        ensures { keys.new.items ≡ filter (is_live (at self.now)) keys.old.items }
    {
        prune(&self.table, keys);
    }

    // Puts other options in place of those of a registration.
    pub(crate) fn set_options(&mut self, key: usize, options: Rc<Interests>)
        ensures changed { at self.new key ≡ option_map (with_new_options options.value)
            (at self.old key) }
        ensures others { (other : ℕ) → other ≢ key → at self.new other ≡ at self.old other }
        ensures lists { self.new.lists ≡ self.old.lists }
    {
        set_options(&mut self.table, key, options);
    }

    // Puts a registration last among those of its node, and its key at a place among those of its observer.
    #[inline(always)]
    pub(crate) fn add(
        &mut self,
        keys: &mut Vec<usize>,
        place: usize,
        mut registration: Registration,
        alloc: Global,
    ) -> Result<(), AllocError>
        requires { place ≤ length keys.old.items }
        ensures ok { OnOk result (Added (at self.old) self.old.lists (plain registration)
            (at self.new) self.new.lists) }
        ensures own { OnOk result (NewKey (at self.old) (plain registration) (at self.new) place
            keys.old.items keys.new.items) }
        ensures nodes { OnOk result (keys_of self.new.lists
            ≡ with_last (keys_of self.old.lists) registration.node) }
        ensures err { OnErr result (self.new ≡ self.old) }
        ensures err_own { OnErr result (keys.new.items ≡ keys.old.items) }
    {
        registration.turn = next_turn(&self.table, self.keys_on(registration.node))?;
        self.table.reserve(1)?;
        let key = self.table.vacant_key();
        keys.insert(place, key)?;
        if let Err(error) = put_key(&mut self.nodes, registration.node, key, alloc) {
            let _ = keys.remove(place);
            return Err(error);
        }
        self.table.insert_reserved(registration);
        Ok(())
    }

    // Takes out those on a node that end, with their keys, and the node with the last.
    pub(crate) fn end_on(&mut self, node: NodeId, ending: &Ending)
        ensures left { (k : ℕ) → at self.new k ≡ (if among k (on node self.old.lists)
            then unless_ending ending.now (at self.old k) else at self.old k) }
        ensures swept { Swept self.old self.new }
    {
        let is_bare = end_keys_on(&mut self.table, &mut self.nodes, node, ending);
        leave_out(&mut self.nodes, node, is_bare);
    }

    // Takes out the one on a node that is under a key, with the key, and the node with the last. The other keys of the node are not gone through.
    pub(crate) fn end_one(&mut self, node: NodeId, key: usize)
        requires { is_on_node node (at self.old key) ≡ true }
        ensures left { (k : ℕ) → at self.new k ≡ (if k == key then None else at self.old k) }
        ensures swept { Swept self.old self.new }
        ensures nodes { MayGoLast node self.old.lists self.new.lists }
    {
        let is_bare = end_key_on(&mut self.table, &mut self.nodes, node, key);
        leave_out(&mut self.nodes, node, is_bare);
    }

    // A law: it does nothing, and its contract tells what holds of registrations at any time.
    pub(crate) fn state_law(&self)
        ensures { AreRegistered self.now }
    {
        let _ = &self.table;
    }
}
