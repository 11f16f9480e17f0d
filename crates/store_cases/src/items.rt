//! Items by number that are added, read and released within reserved room.
use super::player::expect;
use dom_slots::NumberedItems;
use growth_marks::{Act, begins, ends};
use std::alloc::{AllocError, Global};
use std::test::Fail;

// A call at a turn, or an expected state.
enum Step {
    // Reserves room for more items.
    Room(usize),
    // Adds the turn as an item, whose number is the turn.
    Make,
    // Releases the number of the turn, and expects its slot.
    Release(usize),
    // Expects the item with the number of the turn.
    Get(u32),
    // Marks steps that take no memory.
    Begins,
    Ends,
}

// The first turn, the turn after the last, and the step for each turn.
type Row = (u32, u32, Step);

fn reserve(items: &mut NumberedItems<u32>, additional: usize) -> Result<bool, AllocError> {
    if items.made() >= 1_000_000 || additional >= 1_000_000 {
        return Ok(false);
    }
    items.reserve(additional)?;
    Ok(true)
}

// Adds an item with the next number. If memory is refused, nothing has changed, and it reserves the room again.
fn make(items: &mut NumberedItems<u32>, item: u32) -> Result<bool, AllocError> {
    let (made, count) = (items.made(), items.count());
    if made >= 1_000_000 {
        return Ok(false);
    }
    if items.reserve(1).is_err() {
        if items.made() != made || items.count() != count {
            return Ok(false);
        }
        items.reserve(1)?;
    }
    Ok(items.push_reserved(item) == item && items.slot(item) == Some(count))
}

fn release(items: &mut NumberedItems<u32>, number: u32, due: usize) -> bool {
    if items.slot(number).is_none() {
        return false;
    }
    let (slot, item) = items.release(number);
    slot == due && item == number && !items.holds(number)
}

impl Act for Step {
    type Scene = NumberedItems<u32>;

    fn scene(alloc: Global) -> NumberedItems<u32> {
        NumberedItems::new(alloc)
    }

    fn act(
        &self,
        alloc: Global,
        items: &mut NumberedItems<u32>,
        turn: u32,
    ) -> Result<bool, AllocError> {
        match self {
            Step::Room(additional) => reserve(items, *additional),
            Step::Make => make(items, turn),
            Step::Release(slot) => Ok(release(items, turn, *slot)),
            Step::Get(item) => Ok(items.get(turn) == Some(item)),
            Step::Begins => begins(alloc),
            Step::Ends => Ok(ends(alloc)),
        }
    }
}

// Adds, reads and releases items within reserved room.
const WITHOUT_A_GROWTH: &[Row] = &[
    (0, 1500, Step::Make),
    (0, 1, Step::Room(1)),
    (0, 1, Step::Begins),
    (1500, 1501, Step::Make),
    (1500, 1501, Step::Get(1500)),
    (0, 1, Step::Release(0)),
    (1500, 1501, Step::Get(1500)),
    (0, 1, Step::Ends),
];

#[test]
fn items_without_a_growth(rt: HostRuntime) -> Result<(), Fail> {
    expect(&rt, rt.alloc(), WITHOUT_A_GROWTH)
}
