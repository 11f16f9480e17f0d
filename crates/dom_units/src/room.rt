//! Shrinks the buffer of a list of units that uses little of it.
ghost use Rattle.std.specs.Prelude.{◌≡◌, IfOk};

use std::alloc::AllocError;

// A list with units does not shrink if its capacity is at most this.
const KEPT: usize = 32;

// Shrinks the buffer of an empty list, and of a list that fills less than half of it.
//
// The units move into a smaller block, with room for a quarter more. Many small edits stay cheap, because a large part of the units is inserted or
// removed between two such moves. If there is no memory for the smaller block, the units keep their buffer.
pub(crate) fn give_back(units: &mut Vec<u16>)
    ensures { units.new.items ≡ units.old.items }
{
    if !has_too_much(units) {
        return;
    }
    if let Ok(moved) = moved(units) {
        *units = moved;
    }
}

fn has_too_much(units: &Vec<u16>) -> bool {
    let len = units.len();
    len == 0 || units.capacity() / 2 > len.max(KEPT / 2)
}

// Returns the units in a new block, with room for a quarter more.
fn moved(units: &Vec<u16>) -> Result<Vec<u16>, AllocError>
    ensures { IfOk result (λ moved. moved.items ≡ units.now.items) }
{
    let len = units.len();
    let mut moved = Vec::with_capacity(*units.allocator(), len.saturating_add(len / 4))?;
    moved.extend_from_slice(units.as_slice())?;
    Ok(moved)
}
