//! Playing the rows of a test.
use growth_marks::{Act, play};
use std::alloc::Global;
use std::process::Abort;
use std::test::Fail;

// Asserts that all outcomes are the expected ones; on a failure it prints the row and the turn.
pub(crate) fn expect<S: Act>(
    rt: &impl Abort,
    alloc: Global,
    rows: &[(u32, u32, S)],
) -> Result<(), Fail> {
    assert_eq!(rt; play(alloc, rows)?, None);
    Ok(())
}
