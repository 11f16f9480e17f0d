//! Freeing a tree that nothing refers to. The DOM Standard leaves this to garbage collection.

ghost use Rattle.std.specs.Prelude.{◌≡◌, not, false};
ghost use Rattle.std.specs.List.{list_any};
ghost use Rattle.dom_model.specs.PlainLists.Lists.{among};
ghost use Rattle.dom_model.specs.Forests.Forest.{HasNode, inclusive_descendants};
ghost use Rattle.dom_model.specs.Worlds.World.{World as PlainWorld};
ghost use Rattle.dom_model.specs.MutationAlgorithms.Discarding.{named_nodes, is_in_use, discarded};
ghost use Rattle.dom_edit.specs.UsedNodes.{used_nodes, is_used, forgotten};
ghost use Rattle.dom_edit.specs.Whole.{IsWhole, Shows, Follows};

use crate::world::World;
use dom_kinds::Kind;
use dom_tree::NodeId;

impl World {
    /// Brings postponed tables of references up to date, so that [`World::can_discard`] is quick. Its result is the same without.
    pub fn flush_pending(&mut self)
        ensures { self.new ≡ self.old }
    {
        self.iterators.flush_pending();
        self.walkers.flush_pending();
        self.observers.flush_pending();
    }

    /// Returns whether nothing outside a subtree refers to one of its nodes: no parent, no node document elsewhere, no range, iterator, walker or
    /// registration, and no waiting record.
    ///
    /// Released objects refer to nothing. Looks at the nodes of that subtree, and at the numbers that other parts keep.
    pub fn can_discard(&self, top: NodeId) -> bool
        requires whole { IsWhole self.now }
        requires held { HasNode self.now.tree.forest top }
        ensures unused { result ≡ not (is_used self.now top) }
        ensures shown { (w : PlainWorld) → Shows self.now w → result ≡ not (is_in_use w top) }
    {
        if self.tree.parent(top).is_some() || self.is_named(top) {
            return false;
        }
        // only a Document can be a node document, and it has no parent
        !self.tree.is_of_kind(top, Kind::Document) || !self.tree.refers(top)
    }

    // Returns whether another part of the world refers to a node or a descendant of it.
    fn is_named(&self, top: NodeId) -> bool
        requires { HasNode self.now.tree.forest top }
        ensures own { result ≡ list_any (λ m. among m
            (inclusive_descendants self.now.tree.forest top)) (used_nodes self.now) }
        ensures shown { (w : PlainWorld) → Shows self.now w →
            result ≡ list_any (λ m. among m (inclusive_descendants w.forest top)) (named_nodes w) }
    {
        self.ranges.refers(&self.tree, top)
            || self.statics.refers(&self.tree, top)
            || self.iterators.refers(&self.tree, top)
            || self.walkers.refers(&self.tree, top)
            || self.observers.refers(&self.tree, top)
    }

    /// Frees a node and its descendants. Their numbers are not reused.
    ///
    /// [`World::can_discard`] tells whether nothing refers to them.
    pub fn discard(&mut self, top: NodeId)
        requires whole { IsWhole self.old }
        requires held { HasNode self.old.tree.forest top }
        requires unused { is_used self.old top ≡ false }
        ensures discarded { Follows self.old self.new (discarded top) }
        ensures ranges { self.new.ranges ≡ forgotten self.old.tree.forest top self.old.ranges }
        ensures observers { self.new.observers ≡ self.old.observers }
        ensures whole { IsWhole self.new }
    {
        self.ranges.forget(&self.tree, top);
        self.tree.free(top);
    }
}
