//! The node iterators of a session (DOM Standard, "Interface NodeIterator").

ghost use Rattle.std.specs.Prelude.{◌≡◌, ℕ, ◌<◌, [], ◌∷◌, ◌++◌, length, count_by, Some, IsSome, is_some, IfSome, IfOk, OnOk, OnErr};
ghost use Rattle.std.specs.List.{list_any, flat_map};
ghost use Rattle.std.specs.Option.{ForSome};
ghost use Rattle.dom_model.specs.PlainLists.Lists.{among};
ghost use Rattle.dom_model.specs.Forests.Forest.{HasNode, inclusive_descendants};
ghost use Rattle.dom_model.specs.Traversal.Iterators.{new_iterator, next_found, previous_found, moved_to_next, moved_to_previous};
ghost use Rattle.dom_model.specs.MutationAlgorithms.PreRemoval.{pre_removed_all};
ghost use Rattle.dom_model.specs.MutationAlgorithms.Discarding.{nodes_unless_released, nodes_of_iterator};
ghost use Rattle.dom_traverse.specs.Items.{iterator_in, IteratorBecomes, with_released, StandsInside};

use crate::filter::Filter;
use crate::iterator::NodeIterator;
use crate::judge::Judge;
use crate::located::{Located, slot_of};
use crate::pre_removal::removing;
use dom_ids::Id;
use dom_tree::{NodeId, Tree};
use std::alloc::{AllocError, Global};
use std::marker::Model;

/// The kind of an [`IteratorId`].
#[derive(Clone, Copy, Debug, PartialEq, Eq, Hash, Drop)]
pub struct OfIterator;

/// The number of an iterator. The first is 0, and no number is reused.
pub type IteratorId = Id<OfIterator>;

/// Node iterators, each over the inclusive descendants of its root.
///
/// A live number leads to a slot. If an iterator is released, the one in the last slot moves into its slot, so memory is kept for no more iterators
/// than were live at once.
#[derive(Drop)]
pub struct NodeIterators {
    // each stands at its reference
    located: Located<NodeIterator>,
}

impl Model for NodeIterators {
    ghost use Rattle.std.specs.Prelude.{List, Option};
    ghost use Rattle.dom_model.specs.Worlds.World.{Iterator};

    ghost Value = { List (Option Iterator) };

    ghost view = { λ i. i.located };
}

impl NodeIterators {
    /// Returns a table without iterators.
    pub fn new(alloc: Global) -> NodeIterators
        ensures { result ≡ [] }
    {
        NodeIterators {
            located: Located::new(alloc),
        }
    }

    /// Makes an iterator before its root (`createNodeIterator`).
    pub fn make(&mut self, root: NodeId, filter: Filter) -> Result<IteratorId, AllocError>
        requires room { length self.old < 4294967295 }
        ensures number { IfOk result (λ id. id ≡ length self.old) }
        ensures made { OnOk result (self.new ≡ self.old ++ Some (new_iterator root filter) ∷ []) }
        ensures unchanged { OnErr result (self.new ≡ self.old) }
    {
        let filter = Judge::new(self.located.allocator(), filter)?;
        let number = self.located.add(NodeIterator {
            root,
            reference: root,
            before: true,
            filter,
        })?;
        Ok(IteratorId::new(number))
    }

    /// Returns how many iterators were ever made.
    pub fn made(&self) -> u64
        ensures { result ≡ length self.now }
    {
        self.located.made()
    }

    /// Returns the number of live iterators, in constant time.
    pub fn count(&self) -> usize
        ensures { result ≡ count_by is_some self.now }
    {
        self.located.count()
    }

    /// Returns whether a number is that of a live iterator.
    pub fn holds(&self, id: IteratorId) -> bool
        ensures { result ≡ is_some (iterator_in self.now id) }
    {
        self.located.holds(id.number())
    }

    /// Returns `root`, `referenceNode` and `pointerBeforeReferenceNode`.
    pub fn state(&self, id: IteratorId) -> (NodeId, NodeId, bool)
        requires { IsSome (iterator_in self.now id) }
        ensures { IfSome (iterator_in self.now id) (λ i. result ≡ (i.root, i.reference, i.before)) }
    {
        let iterator = self.located.get(id.number());
        (iterator.root, iterator.reference, iterator.before)
    }

    /// Runs `nextNode()`.
    pub fn next<X>(&mut self, tree: &Tree<X>, id: IteratorId) -> Option<NodeId>
        requires held { IsSome (iterator_in self.old id) }
        requires inside { ForSome (iterator_in self.old id) (StandsInside tree.now.forest) }
        ensures found { IfSome (iterator_in self.old id) (λ i. result
            ≡ next_found tree.now.forest i) }
        ensures moved { IteratorBecomes id (moved_to_next tree.now.forest) self.old self.new }
    {
        let located = &mut self.located;
        let slot = slot_of(&located.items, id.number());
        let iterator = located.items.in_slot_mut(slot);
        let found = iterator.next(tree);
        located.whereabouts.leave(slot);
        found
    }

    /// Runs `previousNode()`.
    pub fn previous<X>(&mut self, tree: &Tree<X>, id: IteratorId) -> Option<NodeId>
        requires held { IsSome (iterator_in self.old id) }
        requires inside { ForSome (iterator_in self.old id) (StandsInside tree.now.forest) }
        ensures found { IfSome (iterator_in self.old id) (λ i. result
            ≡ previous_found tree.now.forest i) }
        ensures moved { IteratorBecomes id (moved_to_previous tree.now.forest) self.old self.new }
    {
        let located = &mut self.located;
        let slot = slot_of(&located.items, id.number());
        let iterator = located.items.in_slot_mut(slot);
        let found = iterator.previous(tree);
        located.whereabouts.leave(slot);
        found
    }

    /// Releases an iterator. It refers to no node any more. It takes no memory.
    pub fn release(&mut self, id: IteratorId)
        requires { IsSome (iterator_in self.old id) }
        ensures { self.new ≡ with_released id self.old }
    {
        self.located.release(id.number());
    }

    /// Runs the pre-removing steps of every iterator, before a node is removed from its parent.
    ///
    /// Walks the subtree, or climbs from each reference if that takes fewer steps.
    pub fn removing<X>(&mut self, tree: &Tree<X>, node: NodeId)
        requires { HasNode tree.now.forest node }
        ensures { self.new ≡ pre_removed_all tree.now.forest node self.old }
    {
        let located = &mut self.located;
        removing(&mut located.items, &mut located.whereabouts, tree, node);
    }

    /// Updates the table of iterators by node, which `refers` uses.
    ///
    /// Takes no memory, and one move for each iterator that stepped or that a removal moved since the last call, however often.
    pub fn flush_pending(&mut self)
        ensures { self.new ≡ self.old }
    {
        self.located.flush_pending();
    }

    /// Returns whether an iterator has its root or reference in a subtree.
    ///
    /// Walks the subtree, or climbs from each iterator if that takes fewer steps, or if the table is not up to date.
    pub fn refers<X>(&self, tree: &Tree<X>, top: NodeId) -> bool
        requires { HasNode tree.now.forest top }
        ensures { result ≡ list_any (λ m. among m (inclusive_descendants tree.now.forest top))
            (flat_map (nodes_unless_released nodes_of_iterator) self.now) }
    {
        self.located.refers(tree, top)
    }
}
