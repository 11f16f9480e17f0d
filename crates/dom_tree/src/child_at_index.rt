//! The child at an index.

ghost use Rattle.std.specs.Prelude.{◌≡◌, ◌+◌, ◌-◌, ◌<◌, ◌≤◌, length, slice_get, Some, IfSome};
ghost use Rattle.dom_model.specs.Forests.Forest.{HasNode, parent_of, children_of};

use crate::neighbours::{self, NEAR, number_of, place_of};
use crate::node_id::NodeId;
use crate::tree::Tree;

impl<X> Tree<X> {
    /// Returns the child at an index. Walks from the nearer end, or from a child in the same block.
    pub fn child_at(&self, id: NodeId, index: usize) -> Option<NodeId>
        requires { HasNode self.now.forest id }
        ensures { result ≡ slice_get (children_of self.now.forest id) index }
    {
        let count = self.count(id);
        if index >= count {
            return None;
        }
        let behind = count - 1 - index;
        if NEAR < index && NEAR < behind {
            if let Some(child) = self.child_in_block(id, index) {
                return Some(child);
            }
        }
        if index < behind {
            return self.child_from_first(id, index);
        }
        self.child_from_last(id, behind)
    }

    // Returns the child at an index, if a node that was near it is still a child and has a cached index.
    fn child_in_block(&self, id: NodeId, index: usize) -> Option<NodeId>
        requires { HasNode self.now.forest id }
        ensures { IfSome result (λ child. Some child
            ≡ slice_get (children_of self.now.forest id) index) }
    {
        self.state_law();
        let near = self.near_in_block(id, index)?;
        let from = self.index_within(near, 0)?;
        if from <= index {
            return self.child_after(id, near, from, index - from);
        }
        self.child_before(id, near, from, from - index)
    }

    // Returns a node that was near the child at an index, if it is still a child.
    fn near_in_block(&self, id: NodeId, index: usize) -> Option<NodeId>
        requires { HasNode self.now.forest id }
        ensures { IfSome result (λ near. parent_of self.now.forest near ≡ Some id) }
    {
        let place = place_of(&self.links, &self.table, id);
        let near = self.blocks.near(self.links.slot(place), index)?;
        if self.holds(near) && self.parent(near) == Some(id) {
            return Some(near);
        }
        None
    }

    // Returns the child that is `steps` after the child at an index.
    fn child_after(&self, id: NodeId, child: NodeId, index: usize, steps: usize) -> Option<NodeId>
        requires held { HasNode self.now.forest id }
        requires child { slice_get (children_of self.now.forest id) index ≡ Some child }
        ensures { result ≡ slice_get (children_of self.now.forest id) (index + steps) }
    {
        let _ = index;
        self.state_law();
        self.links.state_law();
        let mut here = place_of(&self.links, &self.table, child);
        for _passed in 0..steps {
            here = neighbours::next(&self.links, here)?;
        }
        Some(number_of(&self.links, here))
    }

    // Returns the child that is `steps` before the child at an index.
    fn child_before(&self, id: NodeId, child: NodeId, index: usize, steps: usize) -> Option<NodeId>
        requires held { HasNode self.now.forest id }
        requires child { slice_get (children_of self.now.forest id) index ≡ Some child }
        requires within { steps ≤ index }
        ensures { result ≡ slice_get (children_of self.now.forest id) (index - steps) }
    {
        let _ = index;
        self.state_law();
        self.links.state_law();
        let mut here = place_of(&self.links, &self.table, child);
        for _passed in 0..steps {
            here = neighbours::prev(&self.links, here)?;
        }
        Some(number_of(&self.links, here))
    }

    // Returns the child that is `steps` after the first.
    fn child_from_first(&self, id: NodeId, steps: usize) -> Option<NodeId>
        requires { HasNode self.now.forest id }
        ensures { result ≡ slice_get (children_of self.now.forest id) steps }
    {
        self.state_law();
        self.links.state_law();
        let mut child = neighbours::first(&self.links, place_of(&self.links, &self.table, id))?;
        for _passed in 0..steps {
            child = neighbours::next(&self.links, child)?;
        }
        Some(number_of(&self.links, child))
    }

    // Returns the child that is `steps` before the last.
    fn child_from_last(&self, id: NodeId, steps: usize) -> Option<NodeId>
        requires held { HasNode self.now.forest id }
        requires within { steps < length (children_of self.now.forest id) }
        ensures { result ≡ slice_get (children_of self.now.forest id)
            (length (children_of self.now.forest id) - 1 - steps) }
    {
        self.state_law();
        self.links.state_law();
        let mut child = neighbours::last(&self.links, place_of(&self.links, &self.table, id))?;
        for _passed in 0..steps {
            child = neighbours::prev(&self.links, child)?;
        }
        Some(number_of(&self.links, child))
    }
}
