//! Inserts children of long lists into blocks and removes them, in constant time.

ghost use Rattle.std.specs.Prelude.{◌≡◌, ℕ, ◌+◌, ◌<◌, ◌≤◌, nat_eq, nat_lt, min, length, Some, IfSome, slice_get};
ghost use Rattle.std.specs.Option.{ForSome};
ghost use Rattle.dom_model.specs.PlainLists.Lists.{place_in};
ghost use Rattle.dom_model.specs.Forests.Arena.{IsSound, entry_at};
ghost use Rattle.dom_links.specs.Placed.{slot_of, slots_of, entry_behind, children_at, parent_at, HasParent, IsChildOf, IsPlaced};
ghost use Rattle.dom_tree.specs.Places.{with_arena, Leads, AreWritten, AreInBlocks, AreRenumbered};
ghost use Rattle.dom_tree.specs.Slots.{unknown, reach_in, IsCounted};
ghost use Rattle.dom_tree.specs.Blocks.{raised, counts_in, counts_but, block_beside, block_put, blocked_put, block_at, previous_in_block, lowered_at, AreBlocked};

use crate::block_counts::BLOCK;
use crate::blocks::{Blocks, LONG};
use crate::index_updates::{index_of, number_up_to, reach_of, set_index, set_sure, sure_of};
use crate::item::{Item, UNKNOWN};
use crate::neighbours::{self, named, number_of};
use dom_links::{Link, Place, Store};

// The most steps to the start of a block.
const WIDE: u32 = 512;

/// Returns whether a parent's children may be in blocks, without a look-up.
pub(crate) fn may_be_blocked<X>(links: &Store<Item<X>>, parent: Place) -> bool
    requires { IsPlaced links.now parent }
    ensures { result ≡ nat_eq (reach_in (entry_behind links.now parent)) unknown }
{
    reach_of(links, parent) == UNKNOWN
}

// Returns the block of the child that follows a new one, or of the last child.
fn block_beside<X>(links: &Store<Item<X>>, parent: Place, before: Link) -> u32
    requires parent_placed { IsPlaced links.now parent }
    requires before_placed { ForSome before (λ b. IsPlaced links.now b) }
    ensures { result ≡ block_beside (entry_at links.now.arena) (slot_of links.now parent)
        (slots_of links.now before) }
{
    if let Some(before) = before.get() {
        return links.value(before).index;
    }
    match neighbours::last(links, parent) {
        Some(last) => links.value(last).index,
        None => 0,
    }
}

/// Returns the block for a new child, if the children of its parent may be in blocks.
pub(crate) fn block_put<X>(links: &Store<Item<X>>, parent: Place, before: Link) -> Option<u32>
    requires parent_placed { IsPlaced links.now parent }
    requires before_placed { ForSome before (λ b. IsPlaced links.now b) }
    ensures { result ≡ block_put (entry_at links.now.arena) (slot_of links.now parent)
        (slots_of links.now before) }
{
    if may_be_blocked(links, parent) {
        return Some(block_beside(links, parent, before));
    }
    None
}

/// Puts a child that was just linked into a block.
pub(crate) fn blocked_put<X>(
    links: &mut Store<Item<X>>,
    blocks: &mut Blocks,
    parent: Place,
    child: Place,
    block: u32,
)
    requires parent_placed { IsPlaced links.old parent }
    requires child_placed { IsPlaced links.old child }
    ensures links { links.new ≡ with_arena (blocked_put links.old.arena (slot_of links.old parent)
        (slot_of links.old child) block) links.old }
    ensures blocks { (p : ℕ) → counts_in blocks.new p ≡ counts_but (slot_of links.old parent)
        (raised (counts_in blocks.old (slot_of links.old parent)) block) blocks.old p }
{
    blocks.raise(links.slot(parent), block);
    set_index(links, child, block);
    set_sure(links, parent, 0, UNKNOWN);
}

// Remembers the next sibling near a block in place of a child that is about to be removed, if it was that child.
fn pass_on<X>(links: &Store<Item<X>>, blocks: &mut Blocks, parent: Place, child: Place, block: u32)
    requires parent_placed { IsPlaced links.now parent }
    requires child_placed { IsPlaced links.now child }
    ensures { blocks.new ≡ blocks.old }
{
    blocks.pass_on(
        links.slot(parent),
        block,
        number_of(links, child),
        named(links, links.next(child)),
    );
}

/// Counts a child that is about to be removed out of its block.
pub(crate) fn blocked_cut<X>(links: &Store<Item<X>>, blocks: &mut Blocks, child: Place)
    requires placed { IsPlaced links.now child }
    requires has_parent { HasParent links.now child }
    requires blocked { AreBlocked (entry_at links.now.arena) blocks.old }
    ensures { (p : ℕ) → counts_in blocks.new p ≡
        lowered_at (entry_at links.now.arena) blocks.old (slot_of links.now child)
        (parent_at links.now child) p }
{
    let parent = neighbours::parent(links, child).unwrap();
    if may_be_blocked(links, parent) {
        let block = links.value(child).index;
        blocks.lower(links.slot(parent), block);
        pass_on(links, blocks, parent, child, block);
    } else if LONG < links.count(parent) {
        pass_on(links, blocks, parent, child, 0);
    }
}

// Returns the previous sibling, if it is in the block.
fn prev_in_block<X>(links: &Store<Item<X>>, child: Place, block: u32) -> Option<Place>
    requires { IsPlaced links.now child }
    ensures { Leads links.now result (previous_in_block (entry_at links.now.arena)
        (slot_of links.now child) block) }
{
    let prev = neighbours::prev(links, child)?;
    if links.value(prev).index == block {
        return Some(prev);
    }
    None
}

/// Returns the index of a child in a block, if the block starts near it. Walks to the start of the block, and adds up the counts of the blocks before
/// it.
pub(crate) fn index_in_block<X>(
    links: &Store<Item<X>>,
    blocks: &Blocks,
    parent: Place,
    child: Place,
) -> Option<usize>
    requires parent_placed { IsPlaced links.now parent }
    requires placed { IsPlaced links.now child }
    requires sound { IsSound links.now.arena }
    requires child { IsChildOf links.now parent child }
    requires blocked { AreBlocked (entry_at links.now.arena) blocks.now }
    ensures { IfSome result (λ i. i ≡ place_in (slot_of links.now child)
        (children_at links.now parent)) }
{
    if !may_be_blocked(links, parent) {
        return None;
    }
    let counts = blocks.counts(links.slot(parent))?;
    let block = index_of(links, child);
    let few = links.count(parent) as usize / 4 + 64;
    if counts.len() <= block as usize || few < counts.len() {
        return None;
    }
    let ahead = counts.ahead_of(block as usize);
    let mut here = child;
    for passed in 0..WIDE {
        match prev_in_block(links, here, block) {
            Some(prev) => here = prev,
            None => return Some((ahead + passed) as usize),
        }
    }
    None
}

/// Returns whether one child comes before another, if they are in different blocks. Compares the blocks alone, without a walk.
pub(crate) fn before_by_block<X>(
    links: &Store<Item<X>>,
    blocks: &Blocks,
    parent: Place,
    a: Place,
    b: Place,
) -> Option<bool>
    requires parent_placed { IsPlaced links.now parent }
    requires a_placed { IsPlaced links.now a }
    requires b_placed { IsPlaced links.now b }
    requires sound { IsSound links.now.arena }
    requires a_child { IsChildOf links.now parent a }
    requires b_child { IsChildOf links.now parent b }
    requires blocked { AreBlocked (entry_at links.now.arena) blocks.now }
    ensures { IfSome result (λ before. before ≡ nat_lt
        (place_in (slot_of links.now a) (children_at links.now parent))
        (place_in (slot_of links.now b) (children_at links.now parent))) }
{
    if !may_be_blocked(links, parent) {
        return None;
    }
    let counts = blocks.counts(links.slot(parent))?;
    let a_block = index_of(links, a);
    let b_block = index_of(links, b);
    if counts.len() == 0 || a_block == b_block {
        return None;
    }
    Some(a_block < b_block)
}

// Remembers a child as near its block, if a block begins at its place.
fn note_first<X>(
    links: &Store<Item<X>>,
    blocks: &mut Blocks,
    parent: Place,
    child: Place,
    place: u32,
)
    requires parent_placed { IsPlaced links.now parent }
    requires child_placed { IsPlaced links.now child }
    ensures { blocks.new ≡ blocks.old }
{
    if place % BLOCK == 0 {
        blocks.note(links.slot(parent), number_of(links, child));
    }
}

// Writes the block of each of a parent's children.
fn write_blocks<X>(
    links: &mut Store<Item<X>>,
    blocks: &mut Blocks,
    parent: Place,
    first: Link,
    count: u32,
)
    requires placed { IsPlaced links.old parent }
    requires sound { IsSound links.old.arena }
    requires first { Leads links.old first (slice_get (children_at links.old parent) 0) }
    requires all { count ≡ length (children_at links.old parent) }
    ensures written { AreWritten links.old links.new parent 0 count block_at }
    ensures blocks { blocks.new ≡ blocks.old }
{
    let mut next = first;
    for place in 0..count {
        let child = next.get().unwrap();
        note_first(links, blocks, parent, child, place);
        set_index(links, child, place / BLOCK);
        next = links.next(child);
    }
}

// Puts the children of a parent into blocks.
fn number_blocks<X>(links: &mut Store<Item<X>>, blocks: &mut Blocks, parent: Place)
    requires placed { IsPlaced links.old parent }
    requires sound { IsSound links.old.arena }
    ensures written { AreInBlocks links.old links.new parent }
    ensures blocks { blocks.new ≡ blocks.old }
{
    let count = links.count(parent);
    let first = links.first(parent);
    write_blocks(links, blocks, parent, first, count);
    set_sure(links, parent, 0, UNKNOWN);
}

/// Caches the index of a child: in blocks if there is room for them, otherwise together with the indices of its preceding siblings. If its block
/// already gives its index, it becomes the node near that block.
pub(crate) fn number_around<X>(
    links: &mut Store<Item<X>>,
    blocks: &mut Blocks,
    parent: Place,
    child: Place,
    index: usize,
)
    requires parent_placed { IsPlaced links.old parent }
    requires child_placed { IsPlaced links.old child }
    requires sound { IsSound links.old.arena }
    requires counted { IsCounted (entry_at links.old.arena) }
    requires blocked { AreBlocked (entry_at links.old.arena) blocks.old }
    requires child { IsChildOf links.old parent child }
    requires index { index ≡ place_in (slot_of links.old child) (children_at links.old parent) }
    ensures { AreRenumbered links.old links.new blocks.new }
{
    let slot = links.slot(parent);
    if index_in_block(links, blocks, parent, child).is_some() {
        blocks.cache_block(slot, index_of(links, child), number_of(links, child));
        return;
    }
    let number = number_of(links, child);
    let steps = index.saturating_sub(sure_of(links, parent) as usize);
    if blocks.fill(slot, links.count(parent), steps) {
        number_blocks(links, blocks, parent);
    } else {
        number_up_to(links, parent, child, index);
        blocks.cache_block(slot, 0, number);
    }
}
