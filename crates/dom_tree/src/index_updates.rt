//! Updates the cached indices, in constant time.

ghost use Rattle.std.specs.Prelude.{◌≡◌, ◌-◌, ◌^◌, ◌<◌, ◌≤◌, Some, IsSome, length, slice_get};
ghost use Rattle.std.specs.Option.{ForSome};
ghost use Rattle.dom_model.specs.PlainLists.Lists.{place_in};
ghost use Rattle.dom_model.specs.Forests.Arena.{IsSound, entry_at};
ghost use Rattle.dom_links.specs.Placed.{slot_of, slots_of, entry_behind, children_at, HasParent, IsChildOf, IsPlaced};
ghost use Rattle.dom_tree.specs.Places.{with_arena, Leads, AreWritten, AreNumbered};
ghost use Rattle.dom_tree.specs.Slots.{index_in, sure_in, reach_in, indexed, assured, IsCounted};
ghost use Rattle.dom_tree.specs.CachedIndices.{cached_index, is_beyond, index_put, sure_put, reach_put, numbered_put, numbered_cut};

use crate::item::{Item, UNKNOWN};
use crate::neighbours;
use dom_links::{Link, Place, Store};

/// Sets the cached index of a node.
pub(crate) fn set_index<X>(links: &mut Store<Item<X>>, place: Place, index: u32)
    requires { IsPlaced links.old place }
    ensures { links.new ≡ with_arena (indexed links.old.arena (slot_of links.old place) index)
        links.old }
{
    let item = links.value_mut(place);
    item.index = index;
}

/// Sets how many of a node's first children have a right index, and how many may have any.
pub(crate) fn set_sure<X>(links: &mut Store<Item<X>>, place: Place, sure: u32, reach: u32)
    requires { IsPlaced links.old place }
    ensures { links.new ≡ with_arena (assured links.old.arena (slot_of links.old place) sure reach)
        links.old }
{
    let item = links.value_mut(place);
    item.sure = sure;
    item.reach = reach;
}

/// Returns how many of a node's first children have a right index.
pub(crate) fn sure_of<X>(links: &Store<Item<X>>, place: Place) -> u32
    requires { IsPlaced links.now place }
    ensures { result ≡ sure_in (entry_behind links.now place) }
{
    links.value(place).sure
}

/// Returns the cached index of a node.
pub(crate) fn index_of<X>(links: &Store<Item<X>>, place: Place) -> u32
    requires { IsPlaced links.now place }
    ensures { result ≡ index_in (entry_behind links.now place) }
{
    links.value(place).index
}

/// Returns how many of a node's first children may have an index.
pub(crate) fn reach_of<X>(links: &Store<Item<X>>, place: Place) -> u32
    requires { IsPlaced links.now place }
    ensures { result ≡ reach_in (entry_behind links.now place) }
{
    links.value(place).reach
}

// Returns whether the last child is behind all children with an index.
fn is_beyond<X>(links: &Store<Item<X>>, parent: Place) -> bool
    requires parent_placed { IsPlaced links.now parent }
    requires child { 0 < length (children_at links.now parent) }
    ensures { result ≡ is_beyond (entry_at links.now.arena) (slot_of links.now parent) }
{
    let last = links.count(parent) - 1;
    sure_of(links, parent) < last && reach_of(links, parent) < last
}

// Returns the index of a new child: that of the next child, or the last index. It is unknown if the children before it have none.
fn new_index<X>(links: &Store<Item<X>>, parent: Place, before: Link) -> u32
    requires parent_placed { IsPlaced links.now parent }
    requires child { 0 < length (children_at links.now parent) }
    requires before_placed { ForSome before (λ b. IsPlaced links.now b) }
    ensures { result ≡ index_put (entry_at links.now.arena) (slot_of links.now parent)
        (slots_of links.now before) }
{
    match before.get() {
        Some(before) => links.value(before).index,
        None if is_beyond(links, parent) => UNKNOWN,
        None => links.count(parent) - 1,
    }
}

// Returns how many of a parent's children have a right index after the insertion.
fn new_sure<X>(links: &Store<Item<X>>, parent: Place, before: Link, index: u32) -> u32
    requires parent_placed { IsPlaced links.now parent }
    requires child { 0 < length (children_at links.now parent) }
    ensures { result ≡ sure_put (entry_at links.now.arena) (slot_of links.now parent)
        (slots_of links.now before) index }
{
    let count = links.count(parent);
    let sure = sure_of(links, parent);
    if before.get().is_none() && count - 1 <= sure {
        return count;
    }
    index.min(sure)
}

// Returns how many of a parent's children may have an index after the insertion.
fn new_reach<X>(links: &Store<Item<X>>, parent: Place, before: Link) -> u32
    requires parent_placed { IsPlaced links.now parent }
    requires child { 0 < length (children_at links.now parent) }
    ensures reach { result ≡ reach_put (entry_at links.now.arena) (slot_of links.now parent)
        (slots_of links.now before) }
    ensures few { length (children_at links.now parent) < 2 ^ 32 }
{
    let count = links.count(parent);
    let reach = reach_of(links, parent);
    match before.get() {
        Some(_) => reach.min(count - 1) + 1,
        None if is_beyond(links, parent) => reach,
        None => count,
    }
}

/// Updates the indices after a child was inserted before another, or as the last.
pub(crate) fn number_put<X>(links: &mut Store<Item<X>>, parent: Place, child: Place, before: Link)
    requires parent_placed { IsPlaced links.old parent }
    requires child_placed { IsPlaced links.old child }
    requires child { 0 < length (children_at links.old parent) }
    requires before_placed { ForSome before (λ b. IsPlaced links.old b) }
    ensures numbered { links.new ≡ with_arena (numbered_put links.old.arena
        (slot_of links.old parent) (slot_of links.old child) (slots_of links.old before))
        links.old }
    ensures few { length (children_at links.old parent) < 2 ^ 32 }
{
    let index = new_index(links, parent, before);
    let sure = new_sure(links, parent, before, index);
    let reach = new_reach(links, parent, before);
    set_index(links, child, index);
    set_sure(links, parent, sure, reach);
}

/// Updates the indices before a child is removed.
pub(crate) fn number_cut<X>(links: &mut Store<Item<X>>, child: Place)
    requires placed { IsPlaced links.old child }
    requires has_parent { HasParent links.old child }
    ensures { links.new ≡ with_arena (numbered_cut links.old.arena (slot_of links.old child))
        links.old }
{
    let parent = neighbours::parent(links, child).unwrap();
    let index = links.value(child).index;
    let sure = sure_of(links, parent);
    let reach = reach_of(links, parent);
    set_sure(links, parent, index.min(sure), reach);
}

// Returns the child that is `steps` before another.
fn child_ahead<X>(links: &Store<Item<X>>, parent: Place, child: Place, steps: u32) -> Place
    requires sound { IsSound links.now.arena }
    requires placed { IsPlaced links.now child }
    requires child { IsChildOf links.now parent child }
    requires within { steps ≤ place_in (slot_of links.now child) (children_at links.now parent) }
    ensures { Leads links.now (Some result) (slice_get (children_at links.now parent)
        (place_in (slot_of links.now child) (children_at links.now parent) - steps)) }
{
    let mut here = child;
    for _passed in 0..steps {
        let ahead = neighbours::prev(links, here).unwrap();
        here = ahead;
    }
    here
}

// Returns the index to write for a child: its place if that is known.
fn told(known: bool, place: u32) -> u32
    ensures { result ≡ cached_index known place }
{
    if known { place } else { UNKNOWN }
}

// Writes the indices of a parent's children, from a given child and its place until another place: each its place, or all unknown.
fn write_indices<X>(
    links: &mut Store<Item<X>>,
    parent: Place,
    first: Link,
    from: u32,
    until: u32,
    known: bool,
)
    requires placed { IsPlaced links.old parent }
    requires sound { IsSound links.old.arena }
    requires first { Leads links.old first (slice_get (children_at links.old parent) from) }
    requires ordered { from ≤ until }
    requires within { until ≤ length (children_at links.old parent) }
    ensures { AreWritten links.old links.new parent from until (cached_index known) }
{
    let mut next = first;
    for place in from..until {
        let child = next.get().unwrap();
        let index = told(known, place);
        set_index(links, child, index);
        next = links.next(child);
    }
}

/// Caches the given index of a child, with the indices of its preceding siblings. The siblings after it get none. Walks back to the nearest child
/// with a right index, and over the children behind that may have one.
pub(crate) fn number_up_to<X>(links: &mut Store<Item<X>>, parent: Place, child: Place, index: usize)
    requires parent_placed { IsPlaced links.old parent }
    requires child_placed { IsPlaced links.old child }
    requires sound { IsSound links.old.arena }
    requires counted { IsCounted (entry_at links.old.arena) }
    requires child { IsChildOf links.old parent child }
    requires index { index ≡ place_in (slot_of links.old child) (children_at links.old parent) }
    ensures { AreNumbered links.old links.new parent child }
{
    let count = links.count(parent);
    let index = index as u32;
    let from = index.min(sure_of(links, parent));
    let reach = reach_of(links, parent);
    let end = index + 1;
    let first = child_ahead(links, parent, child, index - from);
    write_indices(links, parent, Link::to(first), from, end, true);
    let next = links.next(child);
    let until = reach.min(count).max(end);
    links.state_law();
    write_indices(links, parent, next, end, until, false);
    set_sure(links, parent, end, end);
}
