//! The number of children in each block of a long list, and in each run of blocks.

ghost use Rattle.std.specs.Prelude.{◌≡◌, ℕ, ◌+◌, ◌^◌, ◌<◌, ◌≤◌, length, [], IsTrue, IfOk, false};
ghost use Rattle.dom_tree.specs.Blocks.{count_ahead, raised, lowered, AreFilled, AreRunsOf};

use std::alloc::{AllocError, Global};
use std::marker::Model;

/// How many children a block gets when it is made.
pub(crate) const BLOCK: u32 = 16;

// The number of blocks in a run.
const RUN: u32 = 256;

// The number of children in a run of blocks that were just made.
const RUN_MADE: u32 = 4096;

// Queries fewer steps apart than this are at one place.
const ONE_PLACE: usize = 128;

/// Returns for how many blocks a list needs room, with `count` children and some more.
pub(crate) fn blocks_of(count: u32) -> usize
    ensures { result < 2 ^ 32 }
{
    (count / BLOCK) as usize + 10
}

/// The number of children in each block of a list, in the order of the blocks.
///
/// `runs` has the number of children in each 256 blocks together; it may be empty. `outgrown` is how often the blocks could no longer give an index.
/// `is_single` is set if the children are numbered one by one instead, because all queries are at one place.
#[derive(Drop)]
pub(crate) struct BlockCounts {
    each: Vec<u32>,
    runs: Vec<u32>,
    outgrown: u32,
    is_single: bool,
}

impl Model for BlockCounts {
    ghost use Rattle.std.specs.Prelude.{ℕ, List};
    ghost use Rattle.dom_tree.specs.Blocks.{AreRuns};

    ghost Value = { List ℕ };

    ghost view = { λ c. c.each.items };

    ghost invariant = { λ c. AreRuns c.runs.items c.each.items };
}

// Returns the sum of the counts from `from` until `until`, plus `ahead`.
fn add_up(counts: &[u32], from: usize, until: usize, ahead: u32) -> u32
    requires there { until ≤ length counts.now }
    requires order { from ≤ until }
    requires ahead { ahead ≡ count_ahead counts.now from }
    requires few { count_ahead counts.now until < 2 ^ 32 }
    ensures { result ≡ count_ahead counts.now until }
{
    let mut sum = ahead;
    for passed in from..until {
        sum += counts[passed];
    }
    sum
}

// Counts one child more in a block. Discards all counts if there is no such block, or if its count is at its maximum.
fn raise(counts: &mut Vec<u32>, block: u32)
    ensures { counts.new.items ≡ raised counts.old.items block }
{
    match counts.get(block as usize) {
        Some(&count) if count < u32::MAX => counts[block as usize] = count + 1,
        _ => counts.clear(),
    }
}

// Counts one child less in a block. Discards all counts if there is no such block, or if it is empty.
fn lower(counts: &mut Vec<u32>, block: u32)
    ensures { counts.new.items ≡ lowered counts.old.items block }
{
    match counts.get(block as usize) {
        Some(&count) if 0 < count => counts[block as usize] = count - 1,
        _ => counts.clear(),
    }
}

// Makes blocks for `count` children, if there is room for them; otherwise there are none.
fn fill(counts: &mut Vec<u32>, count: u32) -> bool
    ensures filled { IsTrue result → AreFilled counts.new.items count }
    ensures none { result ≡ false → counts.new.items ≡ [] }
{
    counts.clear();
    let blocks = count.div_ceil(BLOCK);
    if counts.capacity() < blocks as usize {
        return false;
    }
    for block in 0..blocks {
        counts.push_reserved((count - block * BLOCK).min(BLOCK));
    }
    true
}

// Makes runs for `count` children in blocks just made, if there is room for them; otherwise there are none.
fn fill_runs(runs: &mut Vec<u32>, count: u32)
    ensures { AreRunsOf runs.new.items count }
{
    runs.clear();
    let wanted = count.div_ceil(RUN_MADE);
    if runs.capacity() < wanted as usize {
        return;
    }
    for run in 0..wanted {
        runs.push_reserved((count - run * RUN_MADE).min(RUN_MADE));
    }
}

// Returns the position of the count that contains an index, from `from` on, and the offset of the index in it.
fn pass(counts: &[u32], from: usize, index: usize) -> (usize, usize) {
    let mut behind = index;
    for passed in from..counts.len() {
        let count = counts[passed] as usize;
        if behind < count {
            return (passed, behind);
        }
        behind -= count;
    }
    (counts.len(), behind)
}

impl BlockCounts {
    /// Returns no blocks, with room for those of twice `count` children.
    pub(crate) fn with_capacity(alloc: Global, count: u32) -> Result<BlockCounts, AllocError>
        ensures { IfOk result (λ counts. counts ≡ []) }
    {
        let blocks = blocks_of(count) * 2;
        let each = Vec::with_capacity(alloc, blocks)?;
        let runs = Vec::with_capacity(alloc, blocks / RUN as usize + 1)?;
        Ok(BlockCounts {
            each,
            runs,
            outgrown: 0,
            is_single: false,
        })
    }

    /// Reserves room for the blocks of `count` children. If there is too little, it reserves room for twice as many.
    pub(crate) fn reserve(&mut self, count: u32) -> Result<(), AllocError>
        ensures { self.new ≡ self.old }
    {
        let blocks = blocks_of(count);
        if self.each.capacity() < blocks {
            self.each
                .reserve((blocks * 2).saturating_sub(self.each.len()))?;
        }
        let runs = blocks / RUN as usize + 1;
        if self.runs.capacity() < runs {
            self.runs
                .reserve((runs * 2).saturating_sub(self.runs.len()))?;
        }
        Ok(())
    }

    // Returns whether to number the children one by one instead. It tries so if the blocks were outgrown 0, 1, 3, 7 and so on times before, and keeps
    // to it as long as queries are near each other.
    fn gives_way(&mut self, steps: usize) -> bool
        ensures { self.new ≡ self.old }
    {
        if self.each.is_empty() {
            self.is_single = self.is_single && steps < ONE_PLACE;
        } else {
            self.is_single = self.outgrown & self.outgrown.wrapping_add(1) == 0;
            self.outgrown = self.outgrown.wrapping_add(1);
        }
        self.is_single
    }

    /// Returns the number of blocks.
    pub(crate) fn len(&self) -> usize
        ensures { result ≡ length self.now }
    {
        self.each.len()
    }

    /// Returns the number of children in the blocks before a block.
    pub(crate) fn ahead_of(&self, block: usize) -> u32
        requires there { block ≤ length self.now }
        requires few { count_ahead self.now block < 2 ^ 32 }
        ensures { result ≡ count_ahead self.now block }
    {
        let runs = (block / RUN as usize).min(self.runs.len());
        let ahead = add_up(&self.runs, 0, runs, 0);
        add_up(&self.each, runs * RUN as usize, block, ahead)
    }

    /// Returns the block of the child at an index.
    pub(crate) fn block_of(&self, index: usize) -> Option<usize> {
        let (runs, behind) = pass(&self.runs, 0, index);
        let (block, _) = pass(&self.each, runs.checked_mul(RUN as usize)?, behind);
        if block < self.each.len() {
            Some(block)
        } else {
            None
        }
    }

    /// Counts one child more in a block.
    pub(crate) fn raise(&mut self, block: u32)
        ensures { self.new ≡ raised self.old block }
    {
        raise(&mut self.each, block);
        raise(&mut self.runs, block / RUN);
        if self.each.is_empty() {
            self.runs.clear();
        }
    }

    /// Counts one child less in a block.
    pub(crate) fn lower(&mut self, block: u32)
        ensures { self.new ≡ lowered self.old block }
    {
        lower(&mut self.each, block);
        lower(&mut self.runs, block / RUN);
        if self.each.is_empty() {
            self.runs.clear();
        }
    }

    /// Makes blocks for `count` children, if there is room and they help; otherwise there are none. The queried child is `steps` after the nearest
    /// one with a cached index.
    pub(crate) fn fill(&mut self, count: u32, steps: usize) -> bool
        ensures filled { IsTrue result → AreFilled self.new count }
        ensures none { result ≡ false → self.new ≡ [] }
    {
        let gives_way = self.gives_way(steps);
        self.runs.clear();
        if gives_way {
            self.each.clear();
            return false;
        }
        if !fill(&mut self.each, count) {
            return false;
        }
        fill_runs(&mut self.runs, count);
        true
    }
}
