//! A paged table over three pages, read, changed and cleared within reserved room.
use super::player::expect;
use dom_pages::Pages;
use growth_marks::{Act, begins, ends};
use std::alloc::{AllocError, Global};
use std::test::Fail;

// A call at a turn, or an expected state.
enum Step {
    // Reserves room for more numbers.
    Room(usize),
    // Gives the number of the turn, with itself as the item.
    GiveOut,
    // Clears it.
    TakeBack,
    // Replaces its item.
    Put(usize),
    // Expects the number itself as its item.
    Itself,
    // Expects that the page with the index of the turn has its memory.
    Present,
    // Marks steps that take no memory.
    Begins,
    Ends,
}

// The first turn, the turn after the last, and the step for each turn.
type Row = (u32, u32, Step);

fn reserve(pages: &mut Pages<usize>, additional: usize) -> Result<bool, AllocError> {
    if pages.len() >= 1_000_000 || additional >= 1_000_000 {
        return Ok(false);
    }
    pages.reserve(additional)?;
    Ok(true)
}

fn give_out(pages: &mut Pages<usize>, number: usize) -> Result<bool, AllocError> {
    if pages.len() >= 1_000_000 {
        return Ok(false);
    }
    pages.reserve(1)?;
    pages.push_reserved(number);
    Ok(true)
}

fn take_back(pages: &mut Pages<usize>, number: usize) -> bool {
    if number >= pages.len() {
        return false;
    }
    pages.clear(number);
    true
}

fn put(pages: &mut Pages<usize>, number: usize, item: usize) -> bool {
    if pages.get(number).is_none() {
        return false;
    }
    pages.set(number, item);
    true
}

impl Act for Step {
    type Scene = Pages<usize>;

    fn scene(alloc: Global) -> Pages<usize> {
        Pages::new(alloc)
    }

    fn act(&self, alloc: Global, pages: &mut Pages<usize>, turn: u32) -> Result<bool, AllocError> {
        let number = turn as usize;
        match self {
            Step::Room(additional) => reserve(pages, *additional),
            Step::GiveOut => give_out(pages, number),
            Step::TakeBack => Ok(take_back(pages, number)),
            Step::Put(item) => Ok(put(pages, number, *item)),
            Step::Itself => Ok(pages.get(number) == Some(number)),
            Step::Present => Ok(pages.is_present(number.saturating_mul(1024))),
            Step::Begins => begins(alloc),
            Step::Ends => Ok(ends(alloc)),
        }
    }
}

// Reads numbers, gives and changes one, and clears most, within reserved room.
const WITHOUT_A_GROWTH: &[Row] = &[
    (0, 2500, Step::GiveOut),
    (0, 1, Step::Room(1)),
    (0, 1, Step::Begins),
    (0, 2500, Step::Itself),
    (2500, 2501, Step::GiveOut),
    (2500, 2501, Step::Put(7)),
    (0, 3, Step::Present),
    (0, 1500, Step::TakeBack),
    (0, 1, Step::Ends),
];

#[test]
fn numbers_without_a_growth(rt: HostRuntime) -> Result<(), Fail> {
    expect(&rt, rt.alloc(), WITHOUT_A_GROWTH)
}
