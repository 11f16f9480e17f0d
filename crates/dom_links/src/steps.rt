//! The steps of the store's functions. Each changes only the table, the free slots or the nodes.
ghost use Rattle.std.specs.Prelude.{◌≡◌, ◌≤◌, ◌<◌, ◌^◌, length, Some, None, IsSome, IfSome, IfNone, option_map};
ghost use Rattle.std.specs.Vec.{vec_capacity};
ghost use denote.RawPtr.{Ptr};
ghost use Rattle.dom_links.specs.Cells.{look};
ghost use Rattle.dom_links.specs.ArenaMemory.{pointer_in};
ghost use Rattle.dom_links.specs.LinkSteps.{link_or, GivesSlot, link_ahead, with_next, with_previous, recounted, with_links};

use crate::node::Node;
use crate::place::Link;
use crate::pool::{NodePtr, Pool};

/// The most slots: 2 ^ 32 - 1, so that the number of children fits in a `u32` too.
const MOST_SLOTS: usize = 0xffff_ffff;

/// Returns the slot of the next node, and reserves all memory that the table and the free slots need for it.
///
/// Returns none if it is out of memory, or if no slot is free and there are as many as allowed.
pub(crate) fn free_slot(table: &mut Vec<Link>, free: &mut Vec<u32>) -> Option<u32>
    requires room { length table.old.items ≤ vec_capacity free.old }
    requires few { length table.old.items < 2 ^ 32 }
    ensures given { IfSome result (GivesSlot table.old.items free.old.items table.new.items
        free.new.items) }
    ensures unchanged { IfNone result ((table.new.items ≡ table.old.items)
        × (free.new.items ≡ free.old.items)) }
    ensures room { length table.new.items ≤ vec_capacity free.new }
    ensures few { length table.new.items < 2 ^ 32 }
{
    if let Some(index) = free.pop() {
        return Some(index);
    }
    let index = table.len();
    if index == MOST_SLOTS || free.reserve(index + 1).is_err() {
        return None;
    }
    if table.push(Link::none()).is_err() {
        return None;
    }
    Some(index as u32)
}

pub(crate) fn link_at(table: &Vec<Link>, index: usize) -> Link
    requires { index < length table.now.items }
    ensures { result ≡ pointer_in table.now.items index }
{
    table[index]
}

/// Returns the link to the node before a new child: the one before `next`, or the last child.
pub(crate) fn link_before<T>(pool: &Pool<Node<T>>, top: *mut Node<T>, next: Link) -> Link
    requires { IsSome (look (link_or next top) pool.now.cells) }
    ensures { IfSome (look (link_or next top) pool.now.cells) (λ n. result ≡ link_ahead next n) }
{
    match next.ptr() {
        Some(ptr) => pool.get(NodePtr { ptr }).prev,
        None => pool.get(NodePtr { ptr: top }).last,
    }
}

/// Links `prev` forward to `next`, or the parent `top` if there is no `prev`.
pub(crate) fn lead_on<T>(pool: &mut Pool<Node<T>>, top: *mut Node<T>, prev: Link, next: Link)
    requires { IsSome (look (link_or prev top) pool.old.cells) }
    ensures nodes { (q : Ptr) → look q pool.new.cells
        ≡ option_map (with_next top prev next q) (look q pool.old.cells) }
    ensures many { length pool.new.cells ≡ length pool.old.cells }
{
    match prev.ptr() {
        Some(ptr) => pool.get_mut(NodePtr { ptr }).next = next,
        None => pool.get_mut(NodePtr { ptr: top }).first = next,
    }
}

/// Links `next` back to `prev`, or the parent `top` if there is no `next`.
pub(crate) fn lead_back<T>(pool: &mut Pool<Node<T>>, top: *mut Node<T>, next: Link, prev: Link)
    requires { IsSome (look (link_or next top) pool.old.cells) }
    ensures nodes { (q : Ptr) → look q pool.new.cells
        ≡ option_map (with_previous top next prev q) (look q pool.old.cells) }
    ensures many { length pool.new.cells ≡ length pool.old.cells }
{
    match next.ptr() {
        Some(ptr) => pool.get_mut(NodePtr { ptr }).prev = prev,
        None => pool.get_mut(NodePtr { ptr: top }).last = prev,
    }
}

pub(crate) fn recount<T>(pool: &mut Pool<Node<T>>, ptr: *mut Node<T>, count: u32)
    requires { IsSome (look ptr pool.old.cells) }
    ensures nodes { (q : Ptr) → look q pool.new.cells
        ≡ option_map (recounted ptr count q) (look q pool.old.cells) }
    ensures many { length pool.new.cells ≡ length pool.old.cells }
{
    pool.get_mut(NodePtr { ptr }).count = count;
}

/// Writes a node's links to its parent and siblings.
pub(crate) fn write_links<T>(
    pool: &mut Pool<Node<T>>,
    ptr: *mut Node<T>,
    parent: Link,
    prev: Link,
    next: Link,
)
    requires { IsSome (look ptr pool.old.cells) }
    ensures nodes { (q : Ptr) → look q pool.new.cells
        ≡ option_map (with_links ptr parent prev next q) (look q pool.old.cells) }
    ensures many { length pool.new.cells ≡ length pool.old.cells }
{
    let node = pool.get_mut(NodePtr { ptr });
    node.parent = parent;
    node.prev = prev;
    node.next = next;
}
