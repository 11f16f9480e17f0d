//! Discarding a tree. The DOM Standard leaves it to garbage collection.

ghost use Rattle.std.specs.Prelude.{◌≡◌, [], None, Some, IfSome, false};
ghost use Rattle.dom_model.specs.Forests.Forest.{HasNode, parent_of, children_of, without};
ghost use Rattle.dom_model.specs.MutationAlgorithms.Discarding.{is_held_outside};
ghost use Rattle.dom_tree.specs.OutsideNodes.{refers_from};
ghost use Rattle.dom_tree.specs.NodeDocuments.{document_in};

use crate::neighbours::place_of;
use crate::node_id::NodeId;
use crate::tally_updates::tallied_take;
use crate::tree::Tree;

impl<X> Tree<X> {
    /// Returns whether anything outside of a node's subtree refers to it: the node's parent, or a node with its node document in the subtree.
    ///
    /// Visits only the nodes of the subtree, as long as the nodes of each node document are counted.
    pub fn refers(&self, top: NodeId) -> bool
        requires { HasNode self.now.forest top }
        ensures { result ≡ is_held_outside self.now.forest top }
    {
        self.state_law();
        if self.parent(top).is_some() {
            return true;
        }
        if let Some(refers) = self.refers_by_count(top) {
            return refers;
        }
        for number in 0..self.table.len() {
            if self.refers_from(top, NodeId::new(number as u32)) {
                return true;
            }
        }
        false
    }

    // Returns whether nodes outside of a root's tree have their node document in it; none if the nodes of each node document are not counted.
    fn refers_by_count(&self, top: NodeId) -> Option<bool>
        requires held { HasNode self.now.forest top }
        requires no_parent { parent_of self.now.forest top ≡ None }
        ensures { IfSome result (λ refers. refers ≡ is_held_outside self.now.forest top) }
    {
        self.state_law();
        self.state_size_law();
        let mut owned = 0;
        let mut inside = 0;
        let mut here = top;
        loop {
            owned += self.owned(here)?;
            inside += u64::from(self.is_inside(top, self.document_of(here)));
            match self.next_inside(top, here) {
                Some(next) => here = next,
                None => return Some(owned != inside),
            }
        }
    }

    // Returns whether a node exists, is outside of the tree, and has its node document in it.
    fn refers_from(&self, top: NodeId, id: NodeId) -> bool
        ensures { result ≡ refers_from self.now.forest top id }
    {
        self.state_law();
        if !self.holds(id) {
            return false;
        }
        let document = self.document_of(id);
        if !self.holds(document) {
            return false;
        }
        if !self.is_ancestor(top, document) {
            return false;
        }
        !self.is_ancestor(top, id)
    }
}

impl<X: Drop> Tree<X> {
    /// Frees a root and all its descendants, from the leaves up. Their numbers are not reused.
    pub fn free(&mut self, top: NodeId)
        requires held { HasNode self.old.forest top }
        requires unnamed { is_held_outside self.old.forest top ≡ false }
        ensures { self.new ≡ record self.old { forest = without top self.old.forest } }
    {
        self.state_law();
        let mut here = top;
        loop {
            let leaf = self.last_inside(here);
            let Some(parent) = self.parent(leaf) else {
                self.take_root(leaf);
                return;
            };
            self.cut(leaf);
            self.take_root(leaf);
            self.state_law();
            here = parent;
        }
    }

    // Frees a root without children.
    fn take_root(&mut self, id: NodeId)
        requires held { HasNode self.old.forest id }
        requires no_parent { parent_of self.old.forest id ≡ None }
        requires no_child { children_of self.old.forest id ≡ [] }
        ensures { self.new ≡ record self.old { forest = without id self.old.forest } }
    {
        self.state_law();
        self.move_to(id, id);
        self.take_alone(id);
    }

    // Frees a root without children that is its own node document. If it is the node document of others, the nodes of each node document are no longer
    // counted.
    fn take_alone(&mut self, id: NodeId)
        requires no_parent { parent_of self.old.forest id ≡ None }
        requires no_child { children_of self.old.forest id ≡ [] }
        requires itself { document_in self.old.forest id ≡ Some id }
        ensures { self.new ≡ record self.old { forest = without id self.old.forest } }
    {
        let place = place_of(&self.links, &self.table, id);
        self.links.state_law();
        let slot = self.links.slot(place);
        self.blocks.remove(slot);
        tallied_take(&self.links, &mut self.tallies, place);
        let item = self.links.take(slot);
        self.links.state_law();
        self.table.clear(id.number() as usize);
        self.live -= 1;
        self.strays |= item.owned != 1;
    }
}
