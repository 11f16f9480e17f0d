//! Caches of sibling indices.

ghost use Rattle.std.specs.Prelude.{◌≡◌, nat_lt, slice_get, IsSome, IfSome};
ghost use Rattle.dom_model.specs.Forests.Forest.{HasNode, parent_of, children_of, index_of};

use crate::block_updates::number_around;
use crate::blocks::LONG;
use crate::neighbours::{self, NEAR, place_of};
use crate::node_id::NodeId;
use crate::tree::Tree;
use std::alloc::AllocError;

impl<X> Tree<X> {
    /// Returns the cached index among the siblings, if any.
    pub fn kept_index(&self, id: NodeId) -> Option<usize>
        requires { HasNode self.now.forest id }
        ensures { IfSome result (λ i. i ≡ index_of self.now.forest id) }
    {
        let place = place_of(&self.links, &self.table, id);
        self.links.state_law();
        let above = neighbours::parent(&self.links, place)?;
        let index = self.links.value(place).index;
        if index < self.links.value(above).sure {
            return Some(index as usize);
        }
        None
    }

    // Caches an index that was found: in a block, or with the indices of the preceding siblings until the list changes before it.
    fn cache_index(&mut self, id: NodeId, index: usize)
        requires held { HasNode self.old.forest id }
        requires index { index ≡ index_of self.old.forest id }
        ensures { self.new ≡ self.old }
    {
        let place = place_of(&self.links, &self.table, id);
        self.links.state_law();
        if let Some(above) = neighbours::parent(&self.links, place) {
            number_around(&mut self.links, &mut self.blocks, above, place, index);
        }
    }

    /// Reserves room for blocks of a parent's children, if there are many. An index is then cached at any place, even if the list changes.
    ///
    /// Fails if it is out of memory.
    #[inline(always)]
    pub fn reserve_blocks(&mut self, parent: NodeId) -> Result<(), AllocError>
        requires { HasNode self.old.forest parent }
        ensures { self.new ≡ self.old }
    {
        let place = place_of(&self.links, &self.table, parent);
        let count = self.links.count(place);
        if count < LONG {
            return Ok(());
        }
        self.blocks.reserve_blocks(self.links.slot(place), count)
    }

    /// Reserves room for blocks of a parent's children and of `more` that are going to be inserted, if these are many together. An index is then
    /// cached at any place, however they are inserted.
    ///
    /// Fails if it is out of memory.
    pub fn reserve_blocks_for(&mut self, parent: NodeId, more: usize) -> Result<(), AllocError>
        requires { HasNode self.old.forest parent }
        ensures { self.new ≡ self.old }
    {
        let place = place_of(&self.links, &self.table, parent);
        let more = more.min(u32::MAX as usize) as u32;
        let count = self.links.count(place).saturating_add(more);
        if count <= LONG {
            return Ok(());
        }
        self.blocks.take_room(self.links.slot(place), count)
    }

    /// Caches the index of each child of a parent, until the list changes before it. It takes no memory.
    pub fn number_children(&mut self, parent: NodeId)
        requires { HasNode self.old.forest parent }
        ensures { self.new ≡ self.old }
    {
        self.state_law();
        if let Some(last) = self.last(parent) {
            let index = self.index(last);
            self.cache_index(last, index);
        }
    }

    /// Returns the index among the siblings, and caches it if it is not found near; 0 for a root. It takes no memory.
    ///
    /// It looks 64 steps to both sides. If it finds nothing there, it caches the index, and the index of each preceding sibling, until the list
    /// changes before it.
    ///
    /// So after the first query, a caller that queries one index after another pays at most the steps between two of them. That holds even if it
    /// changes the list there, from either end or from any place on.
    pub fn found_index(&mut self, id: NodeId) -> usize
        requires { HasNode self.old.forest id }
        ensures index { result ≡ index_of self.old.forest id }
        ensures unchanged { self.new ≡ self.old }
    {
        if let Some(index) = self.index_within(id, NEAR) {
            return index;
        }
        let index = self.index(id);
        self.cache_index(id, index);
        index
    }

    /// Returns the child at an index. If it is far from both ends, its index is cached, and blocks find it again without a walk. It takes no memory.
    pub fn found_child(&mut self, id: NodeId, index: usize) -> Option<NodeId>
        requires { HasNode self.old.forest id }
        ensures child { result ≡ slice_get (children_of self.old.forest id) index }
        ensures unchanged { self.new ≡ self.old }
    {
        self.state_law();
        let child = self.child_at(id, index)?;
        if NEAR < index && NEAR < self.count(id) - index {
            self.cache_index(child, index);
        }
        Some(child)
    }

    /// Returns whether `a` comes before `b` among the children of their parent. It takes no memory.
    ///
    /// If blocks do not decide it, and it is not found within 64 steps to both sides of `a`, the indices of both are cached for the next query.
    pub fn found_comes_before(&mut self, a: NodeId, b: NodeId) -> bool
        requires a_held { HasNode self.old.forest a }
        requires b_held { HasNode self.old.forest b }
        requires one_parent { parent_of self.old.forest a ≡ parent_of self.old.forest b }
        requires child { IsSome (parent_of self.old.forest a) }
        ensures before { result ≡ nat_lt (index_of self.old.forest a) (index_of self.old.forest b) }
        ensures unchanged { self.new ≡ self.old }
    {
        if a == b {
            return false;
        }
        if let Some(before) = self.known_before(a, b) {
            return before;
        }
        if let Some(before) = self.before_by_block(a, b) {
            return before;
        }
        if let Some(before) = self.is_ahead_within(a, b, NEAR) {
            return before;
        }
        let a_index = self.index(a);
        let b_index = self.index(b);
        let before = a_index < b_index;
        if before {
            self.cache_index(b, b_index);
        } else {
            self.cache_index(a, a_index);
        }
        before
    }
}
