//! Walks over the tree: ancestors and tree order (DOM Standard, "Trees").

ghost use Rattle.std.specs.Prelude.{◌≡◌, ◌-◌, ◌<◌, ◌≤◌, nat_lt, length, slice_get, Some, IsSome, IfSome, true};
ghost use Rattle.dom_model.specs.PlainLists.Lists.{among, after, last_of, place_in};
ghost use Rattle.dom_model.specs.Forests.Arena.{siblings_in};
ghost use Rattle.dom_model.specs.Forests.Forest.{HasNode, entry_in, parent_of, children_of, index_of, root_of, ancestors, numbers, inclusive_descendants, adopted};
ghost use Rattle.dom_model.specs.Worlds.Lengths.{length_of};

use crate::block_updates::{before_by_block, index_in_block};
use crate::body::Body;
use crate::neighbours::{self, NEAR, number_of, place_at, place_of};
use crate::node_id::NodeId;
use crate::tree::Tree;
use dom_kinds::Kind;

impl<X> Tree<X> {
    /// Returns the root: the last of the inclusive ancestors.
    pub fn root(&self, id: NodeId) -> NodeId
        requires { HasNode self.now.forest id }
        ensures { Some result ≡ root_of self.now.forest id }
    {
        self.state_law();
        self.links.state_law();
        let mut top = place_of(&self.links, &self.table, id);
        while let Some(above) = neighbours::parent(&self.links, top) {
            top = above;
        }
        number_of(&self.links, top)
    }

    /// Returns whether `above` is an inclusive ancestor of `id`.
    pub fn is_ancestor(&self, above: NodeId, id: NodeId) -> bool
        requires { HasNode self.now.forest id }
        ensures { result ≡ among above (ancestors id self.now.forest) }
    {
        self.state_law();
        self.links.state_law();
        let Some(end) = place_at(&self.links, &self.table, above) else {
            return false;
        };
        let end = self.links.slot(end);
        let mut here = place_of(&self.links, &self.table, id);
        while self.links.slot(here) != end {
            match neighbours::parent(&self.links, here) {
                Some(parent) => here = parent,
                None => return false,
            }
        }
        true
    }

    /// Returns the next node in tree order.
    pub fn next_in_order(&self, id: NodeId) -> Option<NodeId>
        requires { HasNode self.now.forest id }
        ensures { IfSome (root_of self.now.forest id) (λ root. result
            ≡ after id (inclusive_descendants self.now.forest root)) }
    {
        self.state_law();
        self.links.state_law();
        let mut here = place_of(&self.links, &self.table, id);
        if let Some(child) = neighbours::first(&self.links, here) {
            return Some(number_of(&self.links, child));
        }
        loop {
            if let Some(next) = neighbours::next(&self.links, here) {
                return Some(number_of(&self.links, next));
            }
            match neighbours::parent(&self.links, here) {
                Some(parent) => here = parent,
                None => return None,
            }
        }
    }

    /// Returns whether `a` precedes `b` in tree order. Both have the same root.
    pub fn precedes(&self, a: NodeId, b: NodeId) -> bool
        requires a_held { HasNode self.now.forest a }
        requires b_held { HasNode self.now.forest b }
        requires one_root { root_of self.now.forest a ≡ root_of self.now.forest b }
        ensures { result ≡ nat_lt (place_in a (numbers self.now.forest))
            (place_in b (numbers self.now.forest)) }
    {
        self.state_law();
        let met = self.meeting(a, b);
        match (met.first, met.second) {
            (Some(first), Some(second)) => self.comes_before(first, second),
            (None, Some(_)) => true,
            (_, None) => false,
        }
    }

    /// Returns whether `a` comes before `b` among the children of their parent.
    ///
    /// It compares their blocks if these differ, and their indices if both are in one block. Otherwise it walks at most from one to the other.
    pub fn comes_before(&self, a: NodeId, b: NodeId) -> bool
        requires a_held { HasNode self.now.forest a }
        requires b_held { HasNode self.now.forest b }
        requires one_parent { parent_of self.now.forest a ≡ parent_of self.now.forest b }
        requires child { IsSome (parent_of self.now.forest a) }
        ensures { result ≡ nat_lt (index_of self.now.forest a) (index_of self.now.forest b) }
    {
        if a == b {
            return false;
        }
        if let Some(before) = self.known_before(a, b) {
            return before;
        }
        if let Some(before) = self.before_by_block(a, b) {
            return before;
        }
        if let Some(before) = self.is_ahead_within(a, b, NEAR) {
            return before;
        }
        if let Some(before) = self.before_in_blocks(a, b) {
            return before;
        }
        let count = self.siblings(a);
        self.is_ahead_within(a, b, count).unwrap()
    }

    // Returns whether one child comes before another, if they are in different blocks.
    pub(crate) fn before_by_block(&self, a: NodeId, b: NodeId) -> Option<bool>
        requires a_held { HasNode self.now.forest a }
        requires b_held { HasNode self.now.forest b }
        requires one_parent { parent_of self.now.forest a ≡ parent_of self.now.forest b }
        ensures { IfSome result (λ before. before ≡ nat_lt (index_of self.now.forest a)
            (index_of self.now.forest b)) }
    {
        let a = place_of(&self.links, &self.table, a);
        let b = place_of(&self.links, &self.table, b);
        self.links.state_law();
        let above = neighbours::parent(&self.links, a)?;
        before_by_block(&self.links, &self.blocks, above, a, b)
    }

    // Returns whether one child comes before another, if both are in blocks.
    fn before_in_blocks(&self, a: NodeId, b: NodeId) -> Option<bool>
        requires a_held { HasNode self.now.forest a }
        requires b_held { HasNode self.now.forest b }
        ensures { IfSome result (λ before. before ≡ nat_lt (index_of self.now.forest a)
            (index_of self.now.forest b)) }
    {
        let a_index = self.index_in_block(a)?;
        let b_index = self.index_in_block(b)?;
        Some(a_index < b_index)
    }

    // Returns whether one child comes before another, if the indices of both are cached.
    pub(crate) fn known_before(&self, a: NodeId, b: NodeId) -> Option<bool>
        requires a_held { HasNode self.now.forest a }
        requires b_held { HasNode self.now.forest b }
        ensures { IfSome result (λ before. before ≡ nat_lt (index_of self.now.forest a)
            (index_of self.now.forest b)) }
    {
        let a_index = self.kept_index(a)?;
        let b_index = self.kept_index(b)?;
        Some(a_index < b_index)
    }

    // Returns whether one child comes before another, if a walk of `steps` to both sides finds it.
    pub(crate) fn is_ahead_within(&self, a: NodeId, b: NodeId, steps: usize) -> Option<bool>
        requires a_held { HasNode self.now.forest a }
        requires b_held { HasNode self.now.forest b }
        requires apart { ¬ (a ≡ b) }
        requires one_parent { parent_of self.now.forest a ≡ parent_of self.now.forest b }
        requires child { IsSome (parent_of self.now.forest a) }
        ensures ahead { IfSome result (λ ahead. ahead
            ≡ nat_lt (index_of self.now.forest a) (index_of self.now.forest b)) }
        ensures found { length (siblings_in (entry_in self.now.forest) a) ≤ steps → IsSome result }
    {
        self.state_law();
        self.links.state_law();
        let end = self.links.slot(place_of(&self.links, &self.table, b));
        let mut forward = place_of(&self.links, &self.table, a);
        let mut backward = forward;
        for _passed in 0..steps {
            let Some(next) = neighbours::next(&self.links, forward) else {
                return Some(false);
            };
            if self.links.slot(next) == end {
                return Some(true);
            }
            let Some(prev) = neighbours::prev(&self.links, backward) else {
                return Some(true);
            };
            if self.links.slot(prev) == end {
                return Some(false);
            }
            forward = next;
            backward = prev;
        }
        None
    }

    /// Returns the index of a child among its siblings, if it is in a block.
    pub(crate) fn index_in_block(&self, id: NodeId) -> Option<usize>
        requires { HasNode self.now.forest id }
        ensures { IfSome result (λ i. i ≡ index_of self.now.forest id) }
    {
        let place = place_of(&self.links, &self.table, id);
        self.links.state_law();
        let above = neighbours::parent(&self.links, place)?;
        index_in_block(&self.links, &self.blocks, above, place)
    }

    // Returns the number of siblings, including the node; 0 for a root.
    fn siblings(&self, id: NodeId) -> usize
        requires { HasNode self.now.forest id }
        ensures { result ≡ length (siblings_in (entry_in self.now.forest) id) }
    {
        self.state_law();
        match self.parent(id) {
            Some(parent) => self.count(parent),
            None => 0,
        }
    }

    /// Returns the index among the siblings; 0 for a root.
    ///
    /// Walks to both sides in step, until the nearest preceding sibling with a cached index, or the nearer end.
    pub fn index(&self, id: NodeId) -> usize
        requires { HasNode self.now.forest id }
        ensures { result ≡ index_of self.now.forest id }
    {
        let count = self.siblings(id);
        self.index_within(id, count).unwrap()
    }

    /// Returns the index among the siblings, if it is in a block or if a walk finds it; 0 for a root.
    ///
    /// Walks `steps` to both sides, until the first child, a preceding sibling with a cached index, or the last child.
    pub fn index_within(&self, id: NodeId, steps: usize) -> Option<usize>
        requires { HasNode self.now.forest id }
        ensures counted { IfSome result (λ i. i ≡ index_of self.now.forest id) }
        ensures found { index_of self.now.forest id ≤ steps → IsSome result }
    {
        if let Some(index) = self.index_in_block(id) {
            return Some(index);
        }
        self.index_by_steps(id, steps)
    }

    // Returns the index among the siblings, if a walk of `steps` to both sides finds it.
    fn index_by_steps(&self, id: NodeId, steps: usize) -> Option<usize>
        requires { HasNode self.now.forest id }
        ensures counted { IfSome result (λ i. i ≡ index_of self.now.forest id) }
        ensures found { index_of self.now.forest id ≤ steps → IsSome result }
    {
        self.state_law();
        self.links.state_law();
        let mut backward = place_of(&self.links, &self.table, id);
        let mut forward = backward;
        let Some(parent) = neighbours::parent(&self.links, backward) else {
            return Some(0);
        };
        let count = self.links.count(parent) as usize;
        let sure = self.links.value(parent).sure;
        for passed in 0..=steps.min(count) {
            let index = self.links.value(backward).index;
            if index < sure {
                return Some(passed + index as usize);
            }
            let Some(prev) = neighbours::prev(&self.links, backward) else {
                return Some(passed);
            };
            let Some(next) = neighbours::next(&self.links, forward) else {
                return Some(count - 1 - passed);
            };
            backward = prev;
            forward = next;
        }
        None
    }

    /// Sets the node document of all inclusive descendants of a node.
    pub fn set_document(&mut self, top: NodeId, document: NodeId)
        requires { HasNode self.old.forest top }
        ensures { self.new ≡ record self.old { forest = adopted top document self.old.forest } }
    {
        self.state_law();
        let mut here = top;
        loop {
            self.move_to(here, document);
            self.state_law();
            match self.next_inside(top, here) {
                Some(next) => here = next,
                None => return,
            }
        }
    }
}

impl<X: Body> Tree<X> {
    /// Returns the length of a node (DOM Standard, "Interface Node"): of the data for character data, 0 for a doctype, otherwise the number of
    /// children.
    pub fn length(&self, id: NodeId) -> usize
        requires { HasNode self.now.forest id }
        ensures { IfSome (entry_in self.now.forest id) (λ e. result ≡ length_of X.length e) }
    {
        match self.label(id).kind {
            Kind::DocumentType => 0,
            Kind::Text | Kind::ProcessingInstruction | Kind::Comment => self.body(id).length(),
            Kind::Element | Kind::Document | Kind::DocumentFragment => self.count(id),
        }
    }
}
