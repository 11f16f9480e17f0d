//! Items in buckets by key, which get other keys and are removed without taking memory.
use super::player::expect;
use dom_chains::{Chains, HeadsInPages};
use growth_marks::{Act, begins, ends};
use std::alloc::{AllocError, Global};
use std::test::Fail;

// A call at a turn, or an expected state.
enum Step {
    // Covers the keys below this one.
    Cover(u32),
    // Reserves room, and adds the turn as an item with this key.
    Add(u32),
    // Gives the item with the number of the turn this key.
    Place(u32),
    // Removes the item with the number of the turn.
    Remove,
    // Forgets the key of the turn.
    Forget,
    // Expects whether this item has the key of the turn.
    Has(u32, bool),
    // Marks steps that take no memory.
    Begins,
    Ends,
}

// The first turn, the turn after the last, and the step for each turn.
type Row = (u32, u32, Step);

type Ends = Chains<u32, HeadsInPages>;

// Covers keys. If memory is refused, no more keys are covered, and it covers them again.
fn cover(chains: &mut Ends, made: u32) -> Result<bool, AllocError> {
    let was = chains.is_covered(made.saturating_sub(1));
    if chains.cover(u64::from(made)).is_err() {
        if chains.is_covered(made.saturating_sub(1)) != was {
            return Ok(false);
        }
        chains.cover(u64::from(made))?;
    }
    Ok(true)
}

// Adds an item. If memory is refused, no item was added, and it reserves the room again.
fn add(chains: &mut Ends, key: u32, item: u32) -> Result<bool, AllocError> {
    let count = chains.count();
    if count >= 1_000_000 || !chains.is_covered(key) {
        return Ok(false);
    }
    if chains.reserve(1).is_err() {
        if chains.count() != count {
            return Ok(false);
        }
        chains.reserve(1)?;
    }
    chains.push_reserved(key, item);
    Ok(true)
}

fn place(chains: &mut Ends, id: usize, key: u32) -> bool {
    let Some((_, item)) = chains.get(id) else {
        return false;
    };
    if !chains.is_covered(key) {
        return false;
    }
    chains.place(id, key, item);
    true
}

fn remove(chains: &mut Ends, id: usize) -> bool {
    if id >= chains.count() {
        return false;
    }
    chains.swap_remove(id);
    true
}

fn forget(chains: &mut Ends, key: u32) -> bool {
    if chains.has(key) {
        return false;
    }
    chains.forget(key);
    true
}

impl Act for Step {
    type Scene = Ends;

    fn scene(alloc: Global) -> Ends {
        Chains::<u32, HeadsInPages>::new(alloc)
    }

    fn act(&self, alloc: Global, chains: &mut Ends, turn: u32) -> Result<bool, AllocError> {
        match self {
            Step::Cover(made) => cover(chains, *made),
            Step::Add(key) => add(chains, *key, turn),
            Step::Place(key) => Ok(place(chains, turn as usize, *key)),
            Step::Remove => Ok(remove(chains, turn as usize)),
            Step::Forget => Ok(forget(chains, turn)),
            Step::Has(due, is_there) => Ok(chains.any_at(turn, |item| item == *due) == *is_there),
            Step::Begins => begins(alloc),
            Step::Ends => Ok(ends(alloc)),
        }
    }
}

// Changes keys, removes items and forgets keys, without taking memory.
const WITHOUT_A_GROWTH: &[Row] = &[
    (0, 1, Step::Cover(2_000)),
    (0, 1_500, Step::Add(7)),
    (0, 1, Step::Begins),
    (0, 1_000, Step::Place(1_999)),
    (1_999, 2_000, Step::Has(999, true)),
    (7, 8, Step::Has(999, false)),
    (0, 500, Step::Remove),
    (8, 1_900, Step::Forget),
    (0, 1, Step::Ends),
];

#[test]
fn chains_without_a_growth(rt: HostRuntime) -> Result<(), Fail> {
    expect(&rt, rt.alloc(), WITHOUT_A_GROWTH)
}
