//! Playing the scenes of a test.
use growth_marks::{Act, play};
use std::alloc::Global;
use std::process::Abort;
use std::test::Fail;

// Asserts that all outcomes are the expected ones; on a failure it prints the scene, the row and the turn.
pub(crate) fn expect<S: Act>(
    rt: &impl Abort,
    alloc: Global,
    scenes: &[(&str, &[(u32, u32, S)])],
) -> Result<(), Fail> {
    for (name, rows) in scenes {
        assert_eq!(rt; play(alloc, rows)?, None, "{name}");
    }
    Ok(())
}
