//! The blocks of long lists of children: the number of children in each.

ghost use Rattle.std.specs.Prelude.{◌≡◌, ℕ, ◌^◌, ◌<◌, ◌==◌, if◌then◌else◌, option_copied, [], IsTrue, false, nat_eq};
ghost use Rattle.indexmap.specs.IndexMap.{IsUnique};
ghost use Rattle.dom_tree.specs.Blocks.{raised, lowered, counts_or_none, counts_in, counts_but, AreFilled};

use crate::block_counts::{BlockCounts, blocks_of};
use crate::node_id::NodeId;
use dom_links::Slot;
use indexmap::IndexMap;
use std::alloc::{AllocError, Global};
use std::marker::Model;

/// A list with more children than this is long. Any other has no blocks.
pub(crate) const LONG: u32 = 128;

/// The blocks of each parent whose children are in blocks, with the number of children in each, in order.
///
/// `near` has a node for each block, mostly one of its children; a caller has to check where the node is. If the children are numbered one by one,
/// the first is the child of the last query. `was_refused` is set once memory for blocks was refused: each list then checks its room at each change.
#[derive(Drop)]
pub(crate) struct Blocks {
    by_slot: IndexMap<usize, BlockCounts>,
    near: IndexMap<usize, Vec<NodeId>>,
    was_refused: bool,
}

impl Model for Blocks {
    ghost use Rattle.std.specs.Prelude.{ℕ, List, nat_eq};
    ghost use Rattle.indexmap.specs.IndexMap.{IsUnique};

    ghost Value = { List (ℕ × List ℕ) };

    ghost view = { λ b. b.by_slot.entries };

    ghost invariant = { λ b. IsUnique nat_eq b.by_slot };
}

// Frees the counts of a parent.
fn remove(by_slot: &mut IndexMap<usize, BlockCounts>, parent: usize)
    ensures counts { (p : ℕ) → counts_in by_slot.new.entries p
        ≡ counts_but parent [] by_slot.old.entries p }
    ensures unique { IsUnique nat_eq by_slot.new }
{
    let _ = by_slot.swap_remove(&parent);
}

// Reserves room for the counts of a parent with `count` children.
fn reserve(
    by_slot: &mut IndexMap<usize, BlockCounts>,
    parent: usize,
    count: u32,
    alloc: Global,
) -> Result<(), AllocError>
    requires { IsUnique nat_eq by_slot.old }
    ensures counts { (p : ℕ) → counts_in by_slot.new.entries p ≡ counts_in by_slot.old.entries p }
    ensures unique { IsUnique nat_eq by_slot.new }
{
    match by_slot.get_mut(&parent) {
        Some(counts) => counts.reserve(count)?,
        None => {
            let counts = BlockCounts::with_capacity(alloc, count)?;
            by_slot.insert(parent, counts)?;
        }
    }
    Ok(())
}

// Reserves room for a node of each block of a parent with `count` children.
fn reserve_near(
    near: &mut IndexMap<usize, Vec<NodeId>>,
    parent: usize,
    count: u32,
    alloc: Global,
) -> Result<(), AllocError> {
    match near.get_mut(&parent) {
        Some(nodes) => grow(nodes, blocks_of(count))?,
        None => {
            let nodes = Vec::with_capacity(alloc, blocks_of(count) * 2)?;
            near.insert(parent, nodes)?;
        }
    }
    Ok(())
}

// Reserves room for the nodes of `blocks` blocks. If there is too little, it reserves room for twice as many.
fn grow(nodes: &mut Vec<NodeId>, blocks: usize) -> Result<(), AllocError>
    requires few { blocks < 2 ^ 32 }
{
    if nodes.capacity() < blocks {
        nodes.reserve((blocks * 2).saturating_sub(nodes.len()))?;
    }
    Ok(())
}

// Appends a node, if there is room.
fn push(nodes: &mut Vec<NodeId>, node: NodeId) {
    if nodes.len() < nodes.capacity() {
        nodes.push_reserved(node);
    }
}

// Replaces the node near a block, if it is the removed one.
fn replace(nodes: &mut Vec<NodeId>, block: usize, gone: NodeId, next: NodeId) {
    if nodes.get(block).copied() == Some(gone) {
        nodes[block] = next;
    }
}

// Sets the node near a block, if there is one.
fn put_at(nodes: &mut Vec<NodeId>, block: usize, node: NodeId) {
    if block < nodes.len() {
        nodes[block] = node;
    }
}

impl Blocks {
    /// Returns a table without blocks. It takes no memory.
    pub(crate) fn new(alloc: Global) -> Blocks
        ensures { result ≡ [] }
    {
        Blocks {
            by_slot: IndexMap::new(alloc),
            near: IndexMap::new(alloc),
            was_refused: false,
        }
    }

    /// Returns the number of children in each block of a parent, if it has blocks.
    pub(crate) fn counts(&self, parent: Slot) -> Option<&BlockCounts>
        ensures { counts_or_none (option_copied result) ≡ counts_in self.now parent }
    {
        self.by_slot.get(&parent.number())
    }

    /// Counts one child more in a block of a parent.
    pub(crate) fn raise(&mut self, parent: Slot, block: u32)
        ensures { (p : ℕ) → counts_in self.new p ≡ counts_but parent
            (raised (counts_in self.old parent) block) self.old p }
    {
        if let Some(counts) = self.by_slot.get_mut(&parent.number()) {
            counts.raise(block);
        }
    }

    /// Counts one child less in a block of a parent.
    pub(crate) fn lower(&mut self, parent: Slot, block: u32)
        ensures { (p : ℕ) → counts_in self.new p ≡ counts_but parent
            (lowered (counts_in self.old parent) block) self.old p }
    {
        if let Some(counts) = self.by_slot.get_mut(&parent.number()) {
            counts.lower(block);
        }
    }

    /// Makes blocks for a parent's children if there are many, if there is room, and if more than one place is queried; otherwise the parent has
    /// none. The queried child is `steps` after the nearest one with a cached index.
    pub(crate) fn fill(&mut self, parent: Slot, count: u32, steps: usize) -> bool
        ensures filled { IsTrue result → AreFilled (counts_in self.new parent) count }
        ensures none { result ≡ false → counts_in self.new parent ≡ [] }
        ensures others { (p : ℕ) → counts_in self.new p
            ≡ counts_but parent (counts_in self.new parent) self.old p }
    {
        if count <= LONG {
            self.remove(parent);
            return false;
        }
        if let Some(counts) = self.by_slot.get_mut(&parent.number()) {
            if counts.fill(count, steps) {
                self.forget(parent);
                return true;
            }
        }
        false
    }

    /// Frees the blocks of a parent.
    pub(crate) fn remove(&mut self, parent: Slot)
        ensures { (p : ℕ) → counts_in self.new p ≡ counts_but parent [] self.old p }
    {
        if !self.by_slot.is_empty() {
            remove(&mut self.by_slot, parent.number());
            let _ = self.near.swap_remove(&parent.number());
        }
    }

    /// Reserves room for the blocks of a parent's children, so that a query finds it. It does so if their number is a multiple of 128, or if memory
    /// was refused before.
    pub(crate) fn reserve_blocks(&mut self, parent: Slot, count: u32) -> Result<(), AllocError>
        ensures { (p : ℕ) → counts_in self.new p ≡ counts_in self.old p }
    {
        if count % LONG != 0 && !self.was_refused {
            return Ok(());
        }
        self.take_room(parent, count)
    }

    /// Reserves room for the blocks of a parent that is going to have `count` children.
    #[inline(never)]
    pub(crate) fn take_room(&mut self, parent: Slot, count: u32) -> Result<(), AllocError>
        ensures { (p : ℕ) → counts_in self.new p ≡ counts_in self.old p }
    {
        let alloc = *self.by_slot.allocator();
        let room = reserve(&mut self.by_slot, parent.number(), count, alloc);
        let room_near = reserve_near(&mut self.near, parent.number(), count, alloc);
        self.was_refused |= room.is_err() || room_near.is_err();
        room?;
        room_near
    }

    /// Returns a node that was near the child at an index when the blocks were made; without blocks, the child of the last query.
    pub(crate) fn near(&self, parent: Slot, index: usize) -> Option<NodeId> {
        let block = self.counts(parent)?.block_of(index).unwrap_or(0);
        let nodes = self.near.get(&parent.number())?;
        nodes.get(block).copied()
    }

    /// Remembers the first child of a parent's next block, if there is room.
    pub(crate) fn note(&mut self, parent: Slot, node: NodeId)
        ensures { self.new ≡ self.old }
    {
        if let Some(nodes) = self.near.get_mut(&parent.number()) {
            push(nodes, node);
        }
    }

    /// Replaces the node near a block, if it is `gone`.
    pub(crate) fn pass_on(&mut self, parent: Slot, block: u32, gone: NodeId, next: Option<NodeId>)
        ensures { self.new ≡ self.old }
    {
        let Some(next) = next else {
            return;
        };
        if let Some(nodes) = self.near.get_mut(&parent.number()) {
            replace(nodes, block as usize, gone, next);
        }
    }

    /// Sets the node near a block.
    pub(crate) fn cache_block(&mut self, parent: Slot, block: u32, node: NodeId)
        ensures { self.new ≡ self.old }
    {
        if let Some(nodes) = self.near.get_mut(&parent.number()) {
            put_at(nodes, block as usize, node);
        }
    }

    // Forgets the nodes near a parent's blocks.
    fn forget(&mut self, parent: Slot)
        ensures { self.new ≡ self.old }
    {
        if let Some(nodes) = self.near.get_mut(&parent.number()) {
            nodes.clear();
        }
    }
}
