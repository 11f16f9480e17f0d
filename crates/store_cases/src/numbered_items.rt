//! Numbers that are given and released, within reserved room and while memory may be refused.

ghost use Rattle.std.specs.Prelude.{◌≤◌};

use super::player::expect;
use dom_slots::Numbers;
use growth_marks::{Act, begins, ends};
use std::alloc::{AllocError, Global};
use std::test::Fail;

// A call at a turn, or an expected state.
enum Step {
    // Reserves room for more numbers.
    Room(usize),
    // Makes the number of the turn in the last slot.
    Make,
    // Releases the number of the turn.
    Release,
    // Expects how many numbers were given, and how many are live.
    Made(u64, usize),
    // Marks steps that take no memory.
    Begins,
    Ends,
}

// The first turn, the turn after the last, and the step for each turn.
type Row = (u32, u32, Step);

fn reserve(slots: &mut Numbers, additional: usize) -> Result<bool, AllocError> {
    if slots.made() >= 1_000_000 || additional >= 1_000_000 {
        return Ok(false);
    }
    slots.reserve(additional)?;
    Ok(true)
}

// Makes the next number within reserved room, and returns whether it and its slot are the expected ones.
fn make_reserved(slots: &mut Numbers, due: u32, slot: usize) -> bool
    requires { 1 ≤ slots.old.room }
{
    let number = slots.push_reserved();
    number == due && slots.slot(number) == Some(slot)
}

// Reserves room and makes the next number. If memory is refused, nothing has changed, and it reserves the room again.
fn make(slots: &mut Numbers, due: u32) -> Result<bool, AllocError> {
    let (made, live) = (slots.made(), slots.count());
    if made >= 1_000_000 {
        return Ok(false);
    }
    match slots.reserve(1) {
        Ok(()) => Ok(make_reserved(slots, due, live)),
        Err(AllocError) => {
            if slots.made() != made || slots.count() != live {
                return Ok(false);
            }
            slots.reserve(1)?;
            Ok(make_reserved(slots, due, live))
        }
    }
}

// Releases a number, and checks that it has no slot then.
fn release(slots: &mut Numbers, number: u32) -> bool {
    if slots.slot(number).is_none() {
        return false;
    }
    let _slot = slots.release(number);
    slots.slot(number).is_none()
}

impl Act for Step {
    type Scene = Numbers;

    fn scene(alloc: Global) -> Numbers {
        Numbers::new(alloc)
    }

    fn act(&self, alloc: Global, slots: &mut Numbers, turn: u32) -> Result<bool, AllocError> {
        match self {
            Step::Room(additional) => reserve(slots, *additional),
            Step::Make => make(slots, turn),
            Step::Release => Ok(release(slots, turn)),
            Step::Made(made, live) => Ok(slots.made() == *made && slots.count() == *live),
            Step::Begins => begins(alloc),
            Step::Ends => Ok(ends(alloc)),
        }
    }
}

// If memory is refused, nothing has happened, and the next call reserves the room.
const REFUSED_ROOM: &[Row] = &[(0, 12_000, Step::Make), (0, 1, Step::Made(12_000, 12_000))];

#[test]
fn refused_room(rt: HostRuntime) -> Result<(), Fail> {
    expect(&rt, rt.alloc(), REFUSED_ROOM)
}

// Makes, looks up and releases numbers within reserved room.
const WITHOUT_A_GROWTH: &[Row] = &[
    (0, 2_500, Step::Make),
    (0, 1, Step::Room(1)),
    (0, 1, Step::Begins),
    (2_500, 2_501, Step::Make),
    (0, 2_400, Step::Release),
    (0, 1, Step::Made(2_501, 101)),
    (0, 1, Step::Ends),
];

#[test]
fn numbers_without_a_growth(rt: HostRuntime) -> Result<(), Fail> {
    expect(&rt, rt.alloc(), WITHOUT_A_GROWTH)
}
