//! The tree walkers of a session (DOM Standard, "Interface TreeWalker").

ghost use Rattle.std.specs.Prelude.{◌≡◌, ℕ, ◌<◌, [], ◌∷◌, ◌++◌, length, count_by, Some, IsSome, is_some, IfSome, IfOk, OnOk, OnErr};
ghost use Rattle.std.specs.List.{list_any, flat_map};
ghost use Rattle.std.specs.Option.{ForSome};
ghost use Rattle.dom_model.specs.PlainLists.Lists.{among};
ghost use Rattle.dom_model.specs.Forests.Forest.{HasNode, inclusive_descendants};
ghost use Rattle.dom_model.specs.Traversal.Walks.{new_walker, walk_found};
ghost use Rattle.dom_model.specs.MutationAlgorithms.Discarding.{nodes_unless_released, nodes_of_walker};
ghost use Rattle.dom_traverse.specs.Items.{walker_in, WalkerBecomes, with_current, moved_by, with_released, StandsThere};

use crate::filter::Filter;
use crate::judge::Judge;
use crate::located::{Located, slot_of};
use crate::walker::TreeWalker;
use dom_ids::Id;
use dom_model::Move;
use dom_tree::{NodeId, Tree};
use std::alloc::{AllocError, Global};
use std::marker::Model;

/// The kind of a [`WalkerId`].
#[derive(Clone, Copy, Debug, PartialEq, Eq, Hash, Drop)]
pub struct OfWalker;

/// The number of a walker. The first is 0, and no number is reused.
pub type WalkerId = Id<OfWalker>;

/// Tree walkers. Removing a node does not adjust them.
///
/// A live number leads to a slot. If a walker is released, the one in the last slot moves into its slot, so memory is kept for no more walkers than
/// were live at once.
#[derive(Drop)]
pub struct Walkers {
    // each stands at its current node
    located: Located<TreeWalker>,
}

impl Model for Walkers {
    ghost use Rattle.std.specs.Prelude.{List, Option};
    ghost use Rattle.dom_model.specs.Worlds.World.{Walker};

    ghost Value = { List (Option Walker) };

    ghost view = { λ w. w.located };
}

impl Walkers {
    /// Returns a table without walkers.
    pub fn new(alloc: Global) -> Walkers
        ensures { result ≡ [] }
    {
        Walkers {
            located: Located::new(alloc),
        }
    }

    /// Makes a walker at its root (`createTreeWalker`).
    pub fn make(&mut self, root: NodeId, filter: Filter) -> Result<WalkerId, AllocError>
        requires room { length self.old < 4294967295 }
        ensures number { IfOk result (λ id. id ≡ length self.old) }
        ensures made { OnOk result (self.new ≡ self.old ++ Some (new_walker root filter) ∷ []) }
        ensures unchanged { OnErr result (self.new ≡ self.old) }
    {
        let filter = Judge::new(self.located.allocator(), filter)?;
        let number = self.located.add(TreeWalker {
            root,
            current: root,
            filter,
        })?;
        Ok(WalkerId::new(number))
    }

    /// Returns how many walkers were ever made.
    pub fn made(&self) -> u64
        ensures { result ≡ length self.now }
    {
        self.located.made()
    }

    /// Returns the number of live walkers, in constant time.
    pub fn count(&self) -> usize
        ensures { result ≡ count_by is_some self.now }
    {
        self.located.count()
    }

    /// Returns whether a number is that of a live walker.
    pub fn holds(&self, id: WalkerId) -> bool
        ensures { result ≡ is_some (walker_in self.now id) }
    {
        self.located.holds(id.number())
    }

    /// Returns `root` and `currentNode`.
    pub fn state(&self, id: WalkerId) -> (NodeId, NodeId)
        requires { IsSome (walker_in self.now id) }
        ensures { IfSome (walker_in self.now id) (λ w. result ≡ (w.root, w.current)) }
    {
        let walker = self.located.get(id.number());
        (walker.root, walker.current)
    }

    /// Sets `currentNode`, which may be outside the root.
    pub fn set_current(&mut self, id: WalkerId, node: NodeId)
        requires { IsSome (walker_in self.old id) }
        ensures { WalkerBecomes id (with_current node) self.old self.new }
    {
        let located = &mut self.located;
        let slot = slot_of(&located.items, id.number());
        let walker = located.items.in_slot_mut(slot);
        walker.current = node;
        located.whereabouts.leave(slot);
    }

    /// Runs one of the seven moves: to the node that it finds, if there is one.
    pub fn step<X>(&mut self, tree: &Tree<X>, id: WalkerId, way: Move) -> Option<NodeId>
        requires held { IsSome (walker_in self.old id) }
        requires there { ForSome (walker_in self.old id) (StandsThere tree.now.forest) }
        ensures found { IfSome (walker_in self.old id) (λ w. result
            ≡ walk_found way tree.now.forest w) }
        ensures moved { WalkerBecomes id (moved_by way tree.now.forest) self.old self.new }
    {
        let located = &mut self.located;
        let slot = slot_of(&located.items, id.number());
        let walker = located.items.in_slot_mut(slot);
        let found = walker.step(tree, way);
        located.whereabouts.leave(slot);
        found
    }

    /// Releases a walker. It refers to no node any more. It takes no memory.
    pub fn release(&mut self, id: WalkerId)
        requires { IsSome (walker_in self.old id) }
        ensures { self.new ≡ with_released id self.old }
    {
        self.located.release(id.number());
    }

    /// Updates the table of walkers by node, which `refers` uses.
    ///
    /// Takes no memory, and one move for each walker that moved since the last call, however often.
    pub fn flush_pending(&mut self)
        ensures { self.new ≡ self.old }
    {
        self.located.flush_pending();
    }

    /// Returns whether a walker has its root or current node in a subtree.
    ///
    /// Walks the subtree, or climbs from each walker if that takes fewer steps, or if one moved since the last `flush_pending`.
    pub fn refers<X>(&self, tree: &Tree<X>, top: NodeId) -> bool
        requires { HasNode tree.now.forest top }
        ensures { result ≡ list_any (λ m. among m (inclusive_descendants tree.now.forest top))
            (flat_map (nodes_unless_released nodes_of_walker) self.now) }
    {
        self.located.refers(tree, top)
    }
}
