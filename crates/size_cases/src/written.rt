//! Long inputs and outputs, given by their repeated pieces.

use dom_serve::Summary;
use stated_pieces::{USUAL, in_pieces, serve_all};
use std::alloc::{AllocError, Global};
use std::process::Abort;

/// A piece of a repeated text.
#[derive(Drop)]
pub enum Piece {
    /// The same text each time.
    Text(&'static str),
    /// A number: the first one, and how much it grows each time.
    Number(u32, u32),
}

/// Pieces, and how often they are repeated.
#[derive(Drop)]
pub struct Part {
    pub times: u32,
    pub pieces: &'static [Piece],
}

// Appends a piece in its form at a time, from 0 on.
fn put_piece(text: &mut String, alloc: Global, piece: &Piece, time: u32) -> Result<(), AllocError> {
    match piece {
        Piece::Text(same) => text.push_str(same),
        Piece::Number(first, step) => {
            let number = first.wrapping_add(step.wrapping_mul(time));
            let digits = format!(in alloc; "{number}")?;
            text.push_str(digits.as_str())
        }
    }
}

// Appends pieces in their form at a time.
fn put_pieces(
    text: &mut String,
    alloc: Global,
    pieces: &[Piece],
    time: u32,
) -> Result<(), AllocError> {
    for piece in pieces {
        put_piece(text, alloc, piece, time)?;
    }
    Ok(())
}

// Appends a part, repeated.
fn put_part(text: &mut String, alloc: Global, part: &Part) -> Result<(), AllocError> {
    for time in 0..part.times {
        put_pieces(text, alloc, part.pieces, time)?;
    }
    Ok(())
}

// Returns the text of parts.
fn written(alloc: Global, parts: &[Part]) -> Result<String, AllocError> {
    let mut text = String::new(alloc);
    for part in parts {
        put_part(&mut text, alloc, part)?;
    }
    Ok(text)
}

/// Asserts the output for some input lines, and tells the name of the case otherwise.
pub(crate) fn are_answered(
    rt: &impl Abort,
    alloc: Global,
    name: &str,
    given: &[Part],
    due: &[Part],
    lines: u64,
) -> Result<(), AllocError> {
    let input = written(alloc, given)?;
    let output = written(alloc, due)?;
    let served = serve_all(alloc, USUAL, in_pieces(input.as_bytes(), 65536));
    assert_eq!(rt; served.ended, Ok(Summary { lines }), "{name}");
    assert!(rt; served.is_clean, "{name}");
    assert!(rt; served.written.as_slice() == output.as_bytes(), "{name}");
    Ok(())
}
