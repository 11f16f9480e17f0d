//! Items by number, found by their roots and positions.

ghost use Rattle.std.specs.Prelude.{◌≡◌, ◌<◌, [], ◌∷◌, ◌++◌, length, slice_get, slice_set, count_by, Some, IsSome, is_some, IfOk, OnOk, OnErr};
ghost use Rattle.std.specs.List.{list_any, flat_map};
ghost use Rattle.dom_model.specs.PlainLists.Lists.{among};
ghost use Rattle.dom_model.specs.Forests.Forest.{HasNode, inclusive_descendants};
ghost use Rattle.dom_model.specs.MutationAlgorithms.Discarding.{nodes_unless_released};
ghost use Rattle.dom_slots.specs.Slotted.{by_slot};
ghost use Rattle.dom_traverse.specs.NamedNodes.{named_by};
ghost use Rattle.dom_traverse.specs.Items.{item_in, with_released};
ghost use Rattle.dom_traverse.specs.PositionsByNode.{all_standing, StandOrWait};

use crate::positioned::{Positioned, stands_in};
use crate::positions_by_node::PositionsByNode;
use crate::references::{name, names_inside, unname};
use dom_slots::NumberedItems;
use dom_tree::{NodeId, Tree};
use indexmap::IndexMap;
use std::alloc::{AllocError, Global};
use std::marker::Model;

// Items with numbers, each with a root and a position. An item that moves is only marked, until a caller asks which are inside a subtree.
#[derive(Drop)]
pub(crate) struct Located<T: Positioned> {
    pub(crate) items: NumberedItems<T>,
    // positions by slot; none while an item is marked as moved
    pub(crate) whereabouts: PositionsByNode,
    // how many items have a node as their root, by its number
    roots: IndexMap<u32, u32>,
}

impl<T: Positioned> Model for Located<T> {
    ghost use Rattle.std.specs.Prelude.{List, Option};
    ghost use Rattle.std.specs.Coded.{coded_list, coded_option};
    ghost use Rattle.dom_slots.specs.Slotted.{by_slot};
    ghost use Rattle.dom_traverse.specs.NamedNodes.{AreFound};

    ghost Value = { List (Option T) };

    ghost coded = { coded_list (coded_option T.code) };

    ghost view = { λ l. by_slot l.items.slots l.items.items };

    ghost invariant = { λ l. AreFound T.root_of T.node_of l.items.items l.roots l.whereabouts };
}

// The slot of an item, for reading and writing.
pub(crate) fn slot_of<T>(items: &NumberedItems<T>, number: u32) -> usize
    requires { IsSome (item_in (by_slot items.now.slots items.now.items) number) }
    ensures within { result < length items.now.items }
    ensures read { item_in (by_slot items.now.slots items.now.items) number
        ≡ slice_get items.now.items result }
    ensures written { (x : T) → by_slot items.now.slots (slice_set items.now.items result x)
        ≡ slice_set (by_slot items.now.slots items.now.items) number (Some x) }
{
    items.state_law();
    items.slot(number).unwrap()
}

// Stores the positions of moved items.
pub(crate) fn flush_pending<T: Positioned>(items: &[T], whereabouts: &mut PositionsByNode)
    requires { StandOrWait T.node_of items.now whereabouts.old }
    ensures { whereabouts.new ≡ all_standing T.node_of items.now }
{
    while let Some(slot) = whereabouts.waiting() {
        let item = &items[slot];
        whereabouts.set(slot, item.node());
    }
}

impl<T: Positioned> Located<T> {
    // Returns a table without items.
    pub(crate) fn new(alloc: Global) -> Located<T>
        ensures { result ≡ [] }
    {
        Located {
            items: NumberedItems::new(alloc),
            whereabouts: PositionsByNode::new(alloc),
            roots: IndexMap::new(alloc),
        }
    }

    // Returns the allocator.
    pub(crate) fn allocator(&self) -> Global {
        *self.roots.allocator()
    }

    // Adds an item at its root, with the next number.
    pub(crate) fn add(&mut self, item: T) -> Result<u32, AllocError>
        requires room { length self.old < 4294967295 }
        requires stands { T.node_of item ≡ T.root_of item }
        ensures number { IfOk result (λ number. number ≡ length self.old) }
        ensures added { OnOk result (self.new ≡ self.old ++ Some item ∷ []) }
        ensures unchanged { OnErr result (self.new ≡ self.old) }
    {
        let alloc = self.allocator();
        let root = item.root();
        self.items.state_law();
        self.items.reserve(1)?;
        self.roots.reserve(1)?;
        self.whereabouts.add(alloc, root)?;
        name(&mut self.roots, root);
        Ok(self.items.push_reserved(item))
    }

    // Returns how many numbers were given out.
    pub(crate) fn made(&self) -> u64
        ensures { result ≡ length self.now }
    {
        self.items.made()
    }

    // Returns the number of items.
    pub(crate) fn count(&self) -> usize
        ensures { result ≡ count_by is_some self.now }
    {
        self.items.count()
    }

    // Returns whether there is an item of a number.
    pub(crate) fn holds(&self, number: u32) -> bool
        ensures { result ≡ is_some (item_in self.now number) }
    {
        self.items.holds(number)
    }

    // Borrows an item.
    pub(crate) fn get(&self, number: u32) -> &T
        requires { IsSome (item_in self.now number) }
        ensures { item_in self.now number ≡ Some result.now }
    {
        self.items.get(number).unwrap()
    }

    // Removes an item. It refers to no node any more.
    pub(crate) fn release(&mut self, number: u32)
        requires { IsSome (item_in self.old number) }
        ensures { self.new ≡ with_released number self.old }
    {
        let (slot, item) = self.items.release(number);
        self.whereabouts.swap_remove(slot);
        unname(&mut self.roots, item.root());
    }

    // Stores the positions of moved items.
    pub(crate) fn flush_pending(&mut self)
        ensures { self.new ≡ self.old }
    {
        flush_pending(self.items.items(), &mut self.whereabouts);
    }

    // Returns the root or position of an item, two for each item; none past the last.
    fn named(&self, index: usize) -> Option<NodeId> {
        let item = self.items.items().get(index / 2)?;
        Some(if index % 2 == 0 {
            item.root()
        } else {
            item.node()
        })
    }

    // Returns whether an item has its root or position in a subtree. Walks the subtree, or climbs from each item if that takes fewer steps, or if one
    // is marked as moved.
    pub(crate) fn refers<X>(&self, tree: &Tree<X>, top: NodeId) -> bool
        requires { HasNode tree.now.forest top }
        ensures { result ≡ list_any (λ m. among m (inclusive_descendants tree.now.forest top))
            (flat_map (nodes_unless_released (named_by T.root_of T.node_of)) self.now) }
    {
        self.items.state_law();
        if self.whereabouts.waiting().is_some() {
            return refer(self.items.items(), tree, top);
        }
        let steps = tree.steps_inside(top, |index| self.named(index));
        match names_inside(&self.roots, &self.whereabouts, tree, top, steps) {
            Some(answer) => answer,
            None => refer(self.items.items(), tree, top),
        }
    }
}

// Does so by visiting each item.
fn refer<T: Positioned, X>(items: &[T], tree: &Tree<X>, top: NodeId) -> bool
    requires { HasNode tree.now.forest top }
    ensures { result ≡ list_any (λ m. among m (inclusive_descendants tree.now.forest top))
        (flat_map (named_by T.root_of T.node_of) items.now) }
{
    for item in items {
        if stands_in(item, tree, top) {
            return true;
        }
    }
    false
}
