//! The output is the same wherever the input is cut.

use crate::faults::is_told_of_each_fault;
use crate::memory::{is_answered_over_memory, limits_of};
use crate::refusals::is_answered_or_wants;
use dialogues::Dialogue;
use stated_pieces::{Feeder, in_pieces, serve_all};
use std::alloc::Global;
use std::process::Abort;

// Asserts the output of a dialogue over a reader.
fn is_answered(rt: &impl Abort, alloc: Global, dialogue: &Dialogue, reader: Feeder<'_>) {
    let limits = limits_of(dialogue);
    assert!(rt; 1 <= limits.numbers && limits.numbers <= 4294967295 && 1 <= limits.line);
    let served = serve_all(alloc, limits, reader);
    let name = dialogue.name;
    assert!(rt; served.ended.is_ok() && served.is_clean, "{name}");
    assert!(rt; served.written.as_slice() == dialogue.output(), "{name}");
}

// Asserts the output of a dialogue that is read in pieces.
fn is_answered_in_pieces(rt: &impl Abort, alloc: Global, dialogue: &Dialogue) {
    for most in [1, 7, 65536] {
        let reader = in_pieces(dialogue.input(), most);
        is_answered(rt, alloc, dialogue, reader);
    }
}

/// Asserts the output of a dialogue: whole, in pieces, with refused allocations, and cut in two at each byte. Asserts its faults too.
///
/// The test of each subject calls it for all its dialogues.
pub(crate) fn is_answered_in_two(rt: &impl Abort, alloc: Global, dialogue: &Dialogue) {
    is_answered_over_memory(rt, alloc, dialogue);
    is_answered_in_pieces(rt, alloc, dialogue);
    is_answered_or_wants(rt, alloc, dialogue);
    is_told_of_each_fault(rt, alloc, dialogue);
    for cut in 0..dialogue.input().len() {
        let mut reader = in_pieces(dialogue.input(), usize::MAX);
        reader.cut = cut;
        is_answered(rt, alloc, dialogue, reader);
    }
}
