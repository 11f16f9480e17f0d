//! The records that wait for an observer, and the set of nodes in them.

ghost use Rattle.std.specs.Prelude.{◌≡◌, ℕ, ◌+◌, ◌-◌, ◌<◌, ◌≤◌, ◌==◌, ◌||◌, [], ◌∷◌, ◌++◌, length, take, nat_eq, true, flat_map, option_map, IfSome, OnOk, OnErr};
ghost use Rattle.std.specs.List.{list_any};
ghost use Rattle.indexmap.specs.IndexSet.{contains, spare, IsUnchanged};
ghost use Rattle.dom_observe.specs.QueuedNodes.{IsRoomWith, HasRoomFor};
ghost use Rattle.dom_model.specs.PlainLists.Lists.{among};
ghost use Rattle.dom_model.specs.Forests.Forest.{HasNode, inclusive_descendants};
ghost use Rattle.dom_model.specs.MutationAlgorithms.Discarding.{if_any, nodes_of_record};

use crate::record::Record;
use dom_tree::{NodeId, Tree};
use indexmap::IndexSet;
use std::alloc::{AllocError, Global};
use std::marker::Model;
use std::mem;

// How much room of the set is kept after the records are taken.
const ROOM: usize = 8192;

// The records of an observer, in order.
#[derive(Drop)]
pub struct Queue {
    records: Vec<Record>,
    // the numbers of the nodes in the first records
    named: IndexSet<u32>,
    // how many records these are
    caught_up: usize,
    // room that the set needs for the nodes in the other records; none if it is not known
    owed: Option<usize>,
}

impl Model for Queue {
    ghost use Rattle.dom_observe.specs.Queued.{Queued};

    ghost Value = { Queued };

    ghost view = { λ q. record {
      records = q.records.items;
      caught_up = q.caught_up;
    } };

    ghost use Rattle.dom_observe.specs.QueuedNodes.{IsCaughtUp};

    ghost invariant = { λ q. IsCaughtUp q.records.items q.named q.caught_up q.owed };
}

impl Queue {
    // Returns an empty queue. It takes no memory.
    pub fn new(alloc: Global) -> Queue
        ensures { result.records ≡ [] }
    {
        Queue {
            records: Vec::new(alloc),
            named: IndexSet::new(alloc),
            caught_up: 0,
            owed: Some(0),
        }
    }

    // Appends a record, and reserves room for its nodes in the set, to which `flush_pending` adds them.
    pub fn push(&mut self, told: Record) -> Result<(), AllocError>
        ensures ok { OnOk result (self.new.records ≡ self.old.records ++ told ∷ []) }
        ensures err { OnErr result (self.new ≡ self.old) }
    {
        let owed = with_room_for(self.owed, &told);
        self.records.reserve(1)?;
        reserve_known(&mut self.named, owed)?;
        self.records.push_reserved(told);
        self.owed = owed;
        Ok(())
    }

    // Removes the last record, if there is one. It takes no memory.
    //
    // If its nodes are in the set, the set is emptied, and stays so until the records are taken.
    pub fn remove_last(&mut self)
        ensures { self.new.records ≡ take (length self.old.records - 1) self.old.records }
    {
        let is_named = self.caught_up == self.records.len();
        if let Some(told) = self.records.pop() {
            self.owed = without_room_for(self.owed, &told);
        }
        if is_named {
            self.named.clear();
            self.caught_up = 0;
            self.owed = None;
        }
    }

    // Adds the nodes in records queued since its last call to the set, if it has room for them. It takes no memory.
    pub fn flush_pending(&mut self)
        ensures { self.new.records ≡ self.old.records }
    {
        if has_room(&self.named, self.owed) {
            name_each(&mut self.named, &self.records.as_slice()[self.caught_up..]);
            self.caught_up = self.records.len();
            self.owed = Some(0);
        }
    }

    // Takes the records. It takes no memory, and keeps some room of the set.
    //
    // Clearing the set costs in proportion to its room, so it is cleared only if a good part of that was used.
    pub fn take(&mut self, alloc: Global) -> Vec<Record>
        ensures records { result.items ≡ self.old.records }
        ensures emptied { self.new.records ≡ [] }
    {
        let room = self.named.capacity();
        let used = self.named.len();
        if room > ROOM || (used > 0 && used < room / 4) {
            self.named = IndexSet::new(alloc);
        } else if used > 0 {
            self.named.clear();
        }
        self.caught_up = 0;
        self.owed = Some(0);
        mem::replace(&mut self.records, Vec::new(alloc))
    }

    // Returns whether a record refers to a node inside a subtree.
    //
    // Looks nodes up in the set, and climbs from each node in records queued since it was updated.
    pub fn names_inside<X>(&self, tree: &Tree<X>, top: NodeId) -> bool
        requires { HasNode tree.now.forest top }
        ensures { result ≡ list_any (λ m. among m (inclusive_descendants tree.now.forest top))
            (flat_map nodes_of_record self.now.records) }
    {
        is_named_inside(tree, top, &self.named)
            || is_recorded_inside(tree, top, &self.records.as_slice()[self.caught_up..])
    }
}

// Returns the node at an index of the set.
fn node_at(named: &IndexSet<u32>, index: usize) -> Option<NodeId> {
    let number = named.get_index(index)?;
    Some(NodeId::new(*number))
}

// Returns whether a node is in the set.
fn is_named(named: &IndexSet<u32>, node: NodeId) -> bool
    ensures { result ≡ among node named.now.keys }
{
    named.contains(&node.number())
}

// Returns whether a node inside a subtree is in the set.
//
// Walks the subtree, or climbs from each node of the set if that takes fewer steps.
fn is_named_inside<X>(tree: &Tree<X>, top: NodeId, named: &IndexSet<u32>) -> bool
    requires { HasNode tree.now.forest top }
    ensures { result ≡ list_any (λ m. among m (inclusive_descendants tree.now.forest top))
        named.now.keys }
{
    let steps = tree.steps_inside(top, |index| node_at(named, index));
    tree.any_inside(top, steps, |node| is_named(named, node))
        .unwrap_or_else(|| has_name_inside(tree, top, named))
}

// Does so by climbing from each node of the set.
fn has_name_inside<X>(tree: &Tree<X>, top: NodeId, named: &IndexSet<u32>) -> bool
    ensures { result ≡ list_any (λ m. among m (inclusive_descendants tree.now.forest top))
        named.now.keys }
{
    named
        .iter()
        .any(|number| tree.is_inside(top, NodeId::new(*number)))
}

// Returns whether one of these nodes is inside a subtree.
fn is_any_inside<X>(tree: &Tree<X>, top: NodeId, nodes: &[NodeId]) -> bool
    ensures { result ≡ list_any (λ m. among m (inclusive_descendants tree.now.forest top))
        nodes.now }
{
    nodes.iter().any(|node| tree.is_inside(top, *node))
}

// Returns whether an optional node is inside a subtree.
fn is_some_inside<X>(tree: &Tree<X>, top: NodeId, node: Option<NodeId>) -> bool
    ensures { result ≡ list_any (λ m. among m (inclusive_descendants tree.now.forest top))
        (if_any node) }
{
    match node {
        Some(node) => tree.is_inside(top, node),
        None => false,
    }
}

// Returns whether a node in a record is inside a subtree.
fn has_node_inside<X>(tree: &Tree<X>, top: NodeId, told: &Record) -> bool
    ensures { result ≡ list_any (λ m. among m (inclusive_descendants tree.now.forest top))
        (nodes_of_record told.now) }
{
    tree.is_inside(top, told.target)
        || is_any_inside(tree, top, told.added.as_slice())
        || is_any_inside(tree, top, told.removed.as_slice())
        || is_some_inside(tree, top, told.previous)
        || is_some_inside(tree, top, told.next)
}

// Returns whether a node in some records is inside a subtree.
fn is_recorded_inside<X>(tree: &Tree<X>, top: NodeId, records: &[Record]) -> bool
    ensures { result ≡ list_any (λ r. list_any (λ m.
        among m (inclusive_descendants tree.now.forest top)) (nodes_of_record r)) records.now }
{
    records.iter().any(|told| has_node_inside(tree, top, told))
}

// Returns the number of nodes in an optional node.
#[inline(always)]
fn count_of(node: Option<NodeId>) -> usize
    ensures { result ≡ length (if_any node) }
{
    match node {
        Some(_) => 1,
        None => 0,
    }
}

// Returns the number of nodes in a record.
fn room_for(told: &Record) -> usize
    ensures { result ≡ length (nodes_of_record told.now) }
{
    let siblings = count_of(told.previous) + count_of(told.next);
    told.added.as_slice().len() + told.removed.as_slice().len() + siblings + 1
}

// Returns the room that a record's nodes need with that for the others; none if it is not known, or too much.
fn with_room_for(owed: Option<usize>, told: &Record) -> Option<usize>
    ensures { IfSome result (λ room. IsRoomWith owed (length (nodes_of_record told.now)) room) }
{
    match owed {
        Some(owed) => owed.checked_add(room_for(told)),
        None => None,
    }
}

// Returns the room for the others without that for a record's nodes; none if it is not known.
fn without_room_for(owed: Option<usize>, told: &Record) -> Option<usize>
    ensures { result ≡ option_map (λ room. room - length (nodes_of_record told.now)) owed }
{
    match owed {
        Some(owed) => Some(owed.saturating_sub(room_for(told))),
        None => None,
    }
}

// Reserves room in the set, if it is known how much.
fn reserve_known(named: &mut IndexSet<u32>, owed: Option<usize>) -> Result<(), AllocError>
    ensures { IsUnchanged named.old named.new }
{
    match owed {
        Some(room) => named.reserve(room),
        None => Ok(()),
    }
}

// Returns whether it is known how much room the set needs, and the set has it.
fn has_room(named: &IndexSet<u32>, owed: Option<usize>) -> bool
    ensures { result ≡ true → HasRoomFor owed named.now }
{
    match owed {
        Some(room) => room <= named.capacity() - named.len(),
        None => false,
    }
}

// Adds a node to the set, within reserved room.
fn name(named: &mut IndexSet<u32>, node: NodeId)
    requires { 0 < spare named.old }
    ensures named { (n : ℕ) → contains nat_eq named.new n
        ≡ (contains nat_eq named.old n || (node == n)) }
    ensures room { spare named.old ≤ spare named.new + 1 }
{
    named.insert(node.number()).unwrap();
}

// Adds an optional node to the set.
fn name_any(named: &mut IndexSet<u32>, node: Option<NodeId>)
    requires { length (if_any node) ≤ spare named.old }
    ensures named { (n : ℕ) → contains nat_eq named.new n
        ≡ (contains nat_eq named.old n || among n (if_any node)) }
    ensures room { spare named.old ≤ spare named.new + length (if_any node) }
{
    if let Some(node) = node {
        name(named, node);
    }
}

// Adds several nodes to the set.
fn name_all(named: &mut IndexSet<u32>, nodes: &[NodeId])
    requires { length nodes.now ≤ spare named.old }
    ensures named { (n : ℕ) → contains nat_eq named.new n
        ≡ (contains nat_eq named.old n || among n nodes.now) }
    ensures room { spare named.old ≤ spare named.new + length nodes.now }
{
    for node in nodes {
        name(named, *node);
    }
}

// Adds the nodes in a record to the set.
fn name_nodes_of(named: &mut IndexSet<u32>, told: &Record)
    requires { length (nodes_of_record told.now) ≤ spare named.old }
    ensures named { (n : ℕ) → contains nat_eq named.new n
        ≡ (contains nat_eq named.old n || among n (nodes_of_record told.now)) }
    ensures room { spare named.old ≤ spare named.new + length (nodes_of_record told.now) }
{
    name(named, told.target);
    name_all(named, told.added.as_slice());
    name_all(named, told.removed.as_slice());
    name_any(named, told.previous);
    name_any(named, told.next);
}

// Adds the nodes in several records to the set.
fn name_each(named: &mut IndexSet<u32>, records: &[Record])
    requires { length (flat_map nodes_of_record records.now) ≤ spare named.old }
    ensures { (n : ℕ) → contains nat_eq named.new n
        ≡ (contains nat_eq named.old n || among n (flat_map nodes_of_record records.now)) }
{
    for told in records {
        name_nodes_of(named, told);
    }
}
