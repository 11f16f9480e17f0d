//! The neighbours of a node, read without a command: the last answer stays, and no memory is taken. A session that has ended still
//! answers, from the world it holds, with `HP_ENDED`.

ghost use Rattle.std.specs.Prelude.{◌≡◌};
ghost use Rattle.dom_c.specs.Statuses.{found_at};
ghost use Rattle.dom_c.specs.Neighbours.{ReadsForest, node_links, links_out, first_child_out, last_child_out, child_out, child_count_out, children_over};

use crate::handle::Handle;
use crate::handle_state::HandleState;
use crate::status::{HP_CLOSED, HP_ENDED, HP_OK, status_of_own};
use crate::write_positions::{kind_number, node_number};
use dom_session::{Neighbours, NodeId};

/// A node: the standard's number of its kind (`nodeType`), its node document, its parent, siblings and first and last child, or
/// `HP_NONE`, the number of its children, and its length.
#[repr(C)]
#[derive(Clone, Copy, Debug)]
pub struct NodeLinks {
    pub kind: u8,
    pub document: u32,
    pub parent: u32,
    pub previous: u32,
    pub next: u32,
    pub first_child: u32,
    pub last_child: u32,
    pub children: usize,
    pub length: usize,
}

// Returns the neighbours of a node, as C reads them.
fn node_links(links: Neighbours) -> NodeLinks
    ensures { result ≡ node_links links }
{
    NodeLinks {
        kind: kind_number(links.kind),
        document: links.document.number(),
        parent: node_number(links.parent),
        previous: node_number(links.previous),
        next: node_number(links.next),
        first_child: node_number(links.first_child),
        last_child: node_number(links.last_child),
        children: links.children,
        length: links.length,
    }
}

impl HandleState {
    /// Returns the status of an answer that was found: `HP_OK`, or `HP_ENDED` once the session has ended.
    pub(crate) fn found(&self) -> u8
        ensures { result ≡ found_at self.now.ended }
    {
        if self.ended { HP_ENDED } else { HP_OK }
    }
}

/// Writes a node's kind and its neighbours, all at once, in constant time.
#[unsafe(no_mangle)]
pub extern "C" fn hp_links(handle: &mut Handle, node: u32, links: &mut NodeLinks) -> u8
    ensures kept { handle.new.slot.kept ≡ handle.old.slot.kept }
    ensures read { ReadsForest handle.old (links_out node) links.old links.new result }
{
    if !handle.is_open {
        return HP_CLOSED;
    }
    let kept = &handle.slot.lend().kept;
    match kept.session.links(NodeId::new(node)) {
        Ok(found) => {
            *links = node_links(found);
            kept.found()
        }
        Err(error) => status_of_own(error),
    }
}

/// Writes the first child of a node, or `HP_NONE`, in constant time.
#[unsafe(no_mangle)]
pub extern "C" fn hp_first_child(handle: &mut Handle, node: u32, child: &mut u32) -> u8
    ensures kept { handle.new.slot.kept ≡ handle.old.slot.kept }
    ensures read { ReadsForest handle.old (first_child_out node) child.old child.new result }
{
    if !handle.is_open {
        return HP_CLOSED;
    }
    let kept = &handle.slot.lend().kept;
    match kept.session.first_child(NodeId::new(node)) {
        Ok(found) => {
            *child = node_number(found);
            kept.found()
        }
        Err(error) => status_of_own(error),
    }
}

/// Writes the last child of a node, or `HP_NONE`, in constant time.
#[unsafe(no_mangle)]
pub extern "C" fn hp_last_child(handle: &mut Handle, node: u32, child: &mut u32) -> u8
    ensures kept { handle.new.slot.kept ≡ handle.old.slot.kept }
    ensures read { ReadsForest handle.old (last_child_out node) child.old child.new result }
{
    if !handle.is_open {
        return HP_CLOSED;
    }
    let kept = &handle.slot.lend().kept;
    match kept.session.last_child(NodeId::new(node)) {
        Ok(found) => {
            *child = node_number(found);
            kept.found()
        }
        Err(error) => status_of_own(error),
    }
}

/// Writes the child of a node at an index, or `HP_NONE` past the last. It walks from the nearer end.
#[unsafe(no_mangle)]
pub extern "C" fn hp_child_at(handle: &mut Handle, node: u32, index: usize, child: &mut u32) -> u8
    ensures kept { handle.new.slot.kept ≡ handle.old.slot.kept }
    ensures read { ReadsForest handle.old (child_out node index) child.old child.new result }
{
    if !handle.is_open {
        return HP_CLOSED;
    }
    let kept = &handle.slot.lend().kept;
    match kept.session.child_at(NodeId::new(node), index) {
        Ok(found) => {
            *child = node_number(found);
            kept.found()
        }
        Err(error) => status_of_own(error),
    }
}

/// Copies the numbers of a node's children into an array, as many as there is room for, and writes the number of children, which may
/// be larger. The rest of the array stays.
#[unsafe(no_mangle)]
pub extern "C" fn hp_children_into(
    handle: &mut Handle,
    node: u32,
    numbers: &mut [u32],
    count: &mut usize,
) -> u8
    ensures kept { handle.new.slot.kept ≡ handle.old.slot.kept }
    ensures count { ReadsForest handle.old (child_count_out node) count.old count.new result }
    ensures copied { ReadsForest handle.old (children_over node numbers.old) numbers.old numbers.new
        result }
{
    if !handle.is_open {
        return HP_CLOSED;
    }
    let kept = &handle.slot.lend().kept;
    match kept.session.copy_children(NodeId::new(node), numbers) {
        Ok(found) => {
            *count = found;
            kept.found()
        }
        Err(error) => status_of_own(error),
    }
}
