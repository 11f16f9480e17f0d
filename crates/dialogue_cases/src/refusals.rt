//! Dialogues with refused allocations. The writer reserves its room first, so that a refused allocation is one of the server. If that room is
//! refused, there is nothing to check.

use crate::memory::limits_of;
use dialogues::Dialogue;
use dialogues::trees_and_data::TREE_PRINTED;
use dom_serve::{Fault, serve};
use stated_pieces::{Taker, USUAL, all_taken, first_lines, in_pieces};
use std::alloc::{AllocError, Global};
use std::process::Abort;

const OUT_OF_MEMORY: &[u8] = b"{\"error\":\"out-of-memory\"}\n";

// Returns a writer with room for the replies of each dialogue.
fn roomy(alloc: Global) -> Result<Taker, AllocError> {
    let mut writer = all_taken(alloc);
    writer.taken.reserve(2000)?;
    Ok(writer)
}

// Returns whether the text is some first lines of the output, followed by the out-of-memory line.
fn is_cut_by_want(output: &[u8], text: &[u8]) -> bool {
    (0..100).any(|count| match text.strip_prefix(first_lines(output, count)) {
        Some(rest) => rest == OUT_OF_MEMORY,
        None => false,
    })
}

/// Asserts that the output of a dialogue is whole, or ends with the out-of-memory line.
pub(crate) fn is_answered_or_wants(rt: &impl Abort, alloc: Global, dialogue: &Dialogue) {
    let Ok(mut writer) = roomy(alloc) else {
        return;
    };
    let limits = limits_of(dialogue);
    assert!(rt; 1 <= limits.numbers && limits.numbers <= 4294967295 && 1 <= limits.line);
    let mut reader = in_pieces(dialogue.input(), 65536);
    let ended = serve(alloc, limits, &mut reader, &mut writer);
    let output = dialogue.output();
    let text = writer.taken.as_slice();
    let name = dialogue.name;
    match ended {
        Ok(_) => assert!(rt; text == output, "{name}"),
        Err(fault) => {
            assert!(rt; fault == Fault::Memory, "{name}");
            assert!(rt; is_cut_by_want(output, text), "{name}");
        }
    }
}

// Asserts that serving ends if the writer fails after `writes` writes, or if it is out of memory.
fn fails_or_wants(rt: &impl Abort, alloc: Global, mut writer: Taker, writes: u8) {
    let dialogue = &TREE_PRINTED;
    let output = dialogue.output();
    writer.writes = u64::from(writes);
    let mut reader = in_pieces(dialogue.input(), 65536);
    let ended = serve(alloc, USUAL, &mut reader, &mut writer);
    let text = writer.taken.as_slice();
    if ended == Err(Fault::Memory) {
        assert!(rt; is_cut_by_want(output, text));
    } else {
        assert_eq!(rt; ended, Err(Fault::Write));
        assert!(rt; text == first_lines(output, usize::from(writes)));
    }
}

// Each reply is one write, and so is the out-of-memory line.
#[test]
fn first_dialogue_under_refusals(rt: HostRuntime) {
    is_answered_or_wants(&rt, rt.alloc(), &TREE_PRINTED);
    for writes in 0..3u8 {
        if let Ok(writer) = roomy(rt.alloc()) {
            fails_or_wants(&rt, rt.alloc(), writer, writes);
        }
    }
}
