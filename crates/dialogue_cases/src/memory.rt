//! Dialogues with their limits, over readers and writers of the library.

ghost use Rattle.std.specs.Prelude.{◌≡◌};

use dialogues::Dialogue;
use dom_serve::{FromRead, Limits, Summary, ToWrite, serve};
use std::alloc::Global;
use std::process::Abort;

/// Returns the limits of a dialogue.
pub(crate) fn limits_of(dialogue: &Dialogue) -> Limits
    ensures { (result.numbers ≡ dialogue.now.numbers) × (result.line ≡ dialogue.now.line) }
{
    Limits {
        numbers: dialogue.numbers,
        line: dialogue.line,
    }
}

/// Asserts the output of a dialogue, and the number of its lines, over readers and writers of the library.
pub(crate) fn is_answered_over_memory(rt: &impl Abort, alloc: Global, dialogue: &Dialogue) {
    let limits = limits_of(dialogue);
    assert!(rt; 1 <= limits.numbers && limits.numbers <= 4294967295 && 1 <= limits.line);
    let mut reader = FromRead::new(dialogue.input());
    let mut writer = ToWrite::new(Vec::new(alloc));
    let ended = serve(alloc, limits, &mut reader, &mut writer);
    let written = writer.into_inner();
    let name = dialogue.name;
    assert!(rt; written.as_slice() == dialogue.output(), "{name}");
    let lines = dialogue
        .output()
        .iter()
        .filter(|byte| **byte == b'\n')
        .count() as u64;
    assert!(rt; ended == Ok(Summary { lines }), "{name}");
}
