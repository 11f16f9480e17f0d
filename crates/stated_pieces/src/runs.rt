//! Serving over the reader and the writer of this crate.

ghost use Rattle.std.specs.Prelude.{◌≤◌};

use crate::{Feeder, Taker};
use dom_serve::{Fault, Limits, Summary, serve};
use std::alloc::Global;

/// The default limits.
pub const USUAL: Limits = Limits {
    numbers: 4294967295,
    line: 1048576,
};

/// Returns a reader that gives all bytes in pieces of at most `most`.
pub fn in_pieces(bytes: &[u8], most: usize) -> Feeder<'_> {
    Feeder {
        rest: bytes,
        cut: 0,
        most,
        reads: u64::MAX,
        failed: false,
        later: 0,
    }
}

/// Returns a writer that takes all bytes.
pub fn all_taken(alloc: Global) -> Taker {
    Taker {
        taken: Vec::new(alloc),
        flushed: true,
        most: usize::MAX,
        writes: u64::MAX,
        flushes: u64::MAX,
        failed: false,
        later: 0,
    }
}

/// The outcome of serving, and the written bytes.
#[derive(Drop)]
pub struct Served {
    pub ended: Result<Summary, Fault>,
    pub written: Vec<u8>,
    /// Whether no read followed a failed one, and all written bytes were flushed.
    pub is_clean: bool,
}

/// Serves the reader to a writer that takes all bytes.
pub fn serve_all(alloc: Global, limits: Limits, mut reader: Feeder<'_>) -> Served
    requires numbers { (1 ≤ limits.numbers) × (limits.numbers ≤ 4294967295) }
    requires line { 1 ≤ limits.line }
{
    let mut writer = all_taken(alloc);
    let ended = serve(alloc, limits, &mut reader, &mut writer);
    Served {
        ended,
        is_clean: reader.later == 0 && writer.flushed,
        written: writer.taken,
    }
}

/// Returns the first `count` lines of a text.
pub fn first_lines(text: &[u8], count: usize) -> &[u8] {
    let mut left = count;
    for (at, byte) in text.iter().enumerate() {
        if left == 0 {
            return text.get(..at).unwrap_or(text);
        }
        if *byte == b'\n' {
            left -= 1;
        }
    }
    text
}

/// Returns the number of newlines.
pub fn newlines(text: &[u8]) -> usize {
    text.iter().filter(|byte| **byte == b'\n').count()
}
