//! Shared code of the tests of single crates: it plays rows of steps, and marks code that takes no memory.
//!
//! Code that takes no memory is between two marks, in tests whose names end with `without_a_growth`. tools/refused.py runs these under a `malloc`
//! that refuses everything after the first mark. If it refuses only the second mark, the test passes.
#![tactic(auto)]

use std::alloc::{AllocError, Global};

/// Marks where code that takes no memory begins, by reserving 7,777 bytes. Returns true, as a step does.
pub fn begins(alloc: Global) -> Result<bool, AllocError> {
    let mut mark: Vec<u8> = Vec::new(alloc);
    mark.reserve(7777)?;
    Ok(true)
}

/// Marks where code that takes no memory ends, by reserving a byte, which may be refused. Returns true, as a step does.
pub fn ends(alloc: Global) -> bool {
    let mut last: Vec<u8> = Vec::new(alloc);
    let _refused = last.reserve(1);
    true
}

/// A step of a test: a call, or a check.
pub trait Act {
    /// The state that the steps change and check.
    type Scene: Drop;

    /// Returns an empty scene.
    fn scene(alloc: Global) -> Self::Scene;

    /// Runs the step at a turn, and returns whether the outcome is the expected one.
    fn act(&self, alloc: Global, scene: &mut Self::Scene, turn: u32) -> Result<bool, AllocError>;
}

// Runs a step at each turn of its row, and returns the first turn with an unexpected outcome.
fn take_turns<S: Act>(
    alloc: Global,
    scene: &mut S::Scene,
    row: &(u32, u32, S),
) -> Result<Option<u32>, AllocError> {
    let (from, to, step) = row;
    for turn in *from..*to {
        if !step.act(alloc, scene, turn)? {
            return Ok(Some(turn));
        }
    }
    Ok(None)
}

/// Plays rows over a new scene. A row has its first turn, the turn after its last, and the step for each of its turns.
///
/// Returns the row and the turn of the first unexpected outcome.
pub fn play<S: Act>(
    alloc: Global,
    rows: &[(u32, u32, S)],
) -> Result<Option<(usize, u32)>, AllocError> {
    let mut scene = S::scene(alloc);
    let mut index = 0usize;
    for row in rows {
        if let Some(turn) = take_turns(alloc, &mut scene, row)? {
            return Ok(Some((index, turn)));
        }
        index = index.saturating_add(1);
    }
    Ok(None)
}
