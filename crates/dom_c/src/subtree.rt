//! The nodes of a subtree, copied without a command: the last answer stays, and no memory is taken. A session that has ended still
//! answers, from the world it holds, with `HP_ENDED`.

ghost use Rattle.std.specs.Prelude.{◌≡◌, length};
ghost use Rattle.dom_c.specs.BorrowedData.{LendsForest};
ghost use Rattle.dom_c.specs.Subtree.{rows_told, count_told, next_told};

use crate::handle::Handle;
use crate::status::{HP_CLOSED, HP_NOT_THERE, status_of_own};
use crate::write_positions::{kind_number, node_number};
use dom_session::{NodeId, NodeRow, SubtreeNode};

/// A node of a subtree: its number, its parent, or `HP_NONE`, and the standard's number of its kind (`nodeType`).
#[repr(C)]
#[derive(Clone, Copy, Debug)]
pub struct SubtreeRow {
    pub node: u32,
    pub parent: u32,
    pub kind: u8,
}

impl NodeRow for SubtreeRow {
    ghost use Rattle.dom_c.specs.Subtree.{row_told};

    ghost row_of = { row_told };

    fn row_of(node: SubtreeNode) -> SubtreeRow {
        SubtreeRow {
            node: node.node.number(),
            parent: node_number(node.parent),
            kind: kind_number(node.kind),
        }
    }
}

/// Copies the nodes of a subtree into an array, in tree order from `start` on, as many as there is room for. It writes how many, and the
/// node that comes next, where a further call starts, or `HP_NONE`. The rest of the array stays. If `start` is no inclusive descendant of
/// `root`, it says `HP_NOT_THERE`. A call climbs from `start` to `root` first; then a whole walk takes constant time a node.
#[unsafe(no_mangle)]
pub extern "C" fn hp_subtree_into(
    handle: &mut Handle,
    root: u32,
    start: u32,
    rows: &mut [SubtreeRow],
    count: &mut usize,
    next: &mut u32,
) -> u8
    ensures kept { handle.new.slot.kept ≡ handle.old.slot.kept }
    ensures rows { LendsForest handle.old (rows_told root start rows.old) rows.old rows.new result }
    ensures count { LendsForest handle.old (count_told root start (length rows.old)) count.old
        count.new result }
    ensures next { LendsForest handle.old (next_told root start (length rows.old)) next.old next.new
        result }
{
    if !handle.is_open {
        return HP_CLOSED;
    }
    let kept = &handle.slot.lend().kept;
    match kept
        .session
        .copy_subtree(NodeId::new(root), NodeId::new(start), rows)
    {
        Ok(Some(part)) => {
            *count = part.count;
            *next = node_number(part.next);
            kept.found()
        }
        Ok(None) => HP_NOT_THERE,
        Err(error) => status_of_own(error),
    }
}
