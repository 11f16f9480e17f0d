//! Slots that are linked, unlinked, emptied and filled again without taking memory, and many of them.
use super::player::expect;
use dom_links::{Links, Slot};
use growth_marks::{Act, begins, ends};
use std::alloc::{AllocError, Global};
use std::test::Fail;

// A call at a turn with the slot of that number, or an expected state.
enum Step {
    // Adds the sum of the turn and this number as the slot's value.
    Add(u32),
    // Empties the slot, and expects the turn as its value.
    Take,
    // Inserts the slot as the last under a parent.
    Put(u32),
    // Removes it from its parent.
    Cut,
    // Expects its number of children.
    Children(usize),
    // Expects this parent, and the slots of the previous and the next number as siblings.
    InRow(u32),
    // Marks steps that take no memory.
    Begins,
    Ends,
}

// The first turn, the turn after the last, and the step for each turn.
type Row = (u32, u32, Step);

// Adds a value. If memory is refused, the value is returned, and it adds it again.
fn add(links: &mut Links<u32>, value: u32, due: Slot) -> Result<bool, AllocError> {
    match links.add(value) {
        Ok(slot) => Ok(slot == due),
        Err(refused) => {
            if refused.value != value {
                return Ok(false);
            }
            match links.add(refused.value) {
                Ok(slot) => Ok(slot == due),
                Err(_) => Err(AllocError),
            }
        }
    }
}

fn take(links: &mut Links<u32>, slot: Slot, due: u32) -> bool {
    if !links.holds(slot) || links.parent(slot).is_some() || links.count(slot) != 0 {
        return false;
    }
    links.take(slot) == due
}

// Inserts a child without children of its own.
fn put(links: &mut Links<u32>, parent: Slot, child: Slot, before: Option<Slot>) -> bool {
    if parent == child || !links.holds(parent) || !links.holds(child) {
        return false;
    }
    if links.parent(child).is_some() || links.count(child) != 0 {
        return false;
    }
    links.state_law();
    match before {
        Some(next) => {
            if !links.holds(next) || links.parent(next) != Some(parent) {
                return false;
            }
            links.link(parent, child, Some(next));
        }
        None => links.link(parent, child, None),
    }
    true
}

fn cut(links: &mut Links<u32>, child: Slot) -> bool {
    if !links.holds(child) || links.parent(child).is_none() {
        return false;
    }
    links.unlink(child);
    true
}

// Returns whether a slot has this parent, and the slots of the previous and the next number as siblings.
fn is_in_row(links: &Links<u32>, number: u32, parent: Slot) -> bool {
    let slot = slot_at(number);
    links.holds(slot)
        && links.parent(slot) == Some(parent)
        && links.prev(slot) == Some(slot_at(number.saturating_sub(1)))
        && links.next(slot) == Some(slot_at(number.saturating_add(1)))
}

fn slot_at(number: u32) -> Slot {
    Slot::at(number as usize)
}

impl Act for Step {
    type Scene = Links<u32>;

    fn scene(alloc: Global) -> Links<u32> {
        Links::new(alloc)
    }

    fn act(&self, alloc: Global, links: &mut Links<u32>, turn: u32) -> Result<bool, AllocError> {
        let slot = slot_at(turn);
        match self {
            Step::Add(more) => add(links, more.wrapping_add(turn), slot),
            Step::Take => Ok(take(links, slot, turn)),
            Step::Put(parent) => Ok(put(links, slot_at(*parent), slot, None)),
            Step::Cut => Ok(cut(links, slot)),
            Step::Children(count) => Ok(links.holds(slot) && links.count(slot) == *count),
            Step::InRow(parent) => Ok(is_in_row(links, turn, slot_at(*parent))),
            Step::Begins => begins(alloc),
            Step::Ends => Ok(ends(alloc)),
        }
    }
}

// All nodes are made before the first link.
const WITHOUT_A_GROWTH: &[Row] = &[
    (0, 1_000, Step::Add(0)),
    (1_000, 1_001, Step::Add(4_000)),
    (0, 1, Step::Begins),
    (0, 1_000, Step::Put(1_000)),
    (1_000, 1_001, Step::Children(1_000)),
    (1, 999, Step::InRow(1_000)),
    (0, 1_000, Step::Cut),
    (1_000, 1_001, Step::Children(0)),
    (0, 1_000, Step::Take),
    (0, 1, Step::Ends),
];

#[test]
fn a_thousand_links_without_a_growth(rt: HostRuntime) -> Result<(), Fail> {
    expect(&rt, rt.alloc(), WITHOUT_A_GROWTH)
}

// If memory is refused, the value is returned, and adding it again succeeds. The slot emptied last is filled first.
const REFUSED: &[Row] = &[
    (0, 1_000, Step::Add(0)),
    (0, 1_000, Step::Take),
    (999, 1_000, Step::Add(0)),
];

#[test]
fn a_refused_add_hands_the_value_back(rt: HostRuntime) -> Result<(), Fail> {
    expect(&rt, rt.alloc(), REFUSED)
}

// More slots than a document of the other tests.
const FIVE_MILLION: &[Row] = &[(0, 5_000_001, Step::Add(0))];

#[test]
fn five_million_slots(rt: HostRuntime) -> Result<(), Fail> {
    expect(&rt, rt.alloc(), FIVE_MILLION)
}
