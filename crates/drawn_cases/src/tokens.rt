//! The tokens of a drawn text, and its gaps.

ghost use Rattle.std.specs.Prelude.{◌≤◌, length, IfOk};

use std::alloc::{AllocError, Global};

/// A boundary point.
#[derive(Clone, Copy, PartialEq, Eq)]
pub struct Point {
    pub node: u64,
    pub offset: u64,
}

/// The two ends of a live range.
#[derive(Clone, Copy, PartialEq, Eq)]
pub struct Ends {
    pub start: Point,
    pub end: Point,
}

/// The sign around a node: a tag of one letter, or quotes.
#[derive(Clone, Copy, PartialEq, Eq)]
pub enum Sign {
    Tag(u8),
    Quotes,
}

/// A token of a text.
#[derive(Clone, Copy, PartialEq, Eq)]
pub enum Token {
    /// The number of the node.
    Open(u64, Sign),
    Close,
    OneUnit(u8),
    /// The number of the live range.
    Mark(usize, Side),
}

/// The start or the end of a live range.
#[derive(Clone, Copy, PartialEq, Eq)]
pub enum Side {
    Start,
    End,
}

// A walk over a text has a point in the innermost open node, and in each node around it.

fn step(here: &mut Vec<Point>) {
    if let Some(point) = here.last_mut() {
        point.offset = point.offset.saturating_add(1);
    }
}

/// Moves the walk past a token.
pub(crate) fn pass(here: &mut Vec<Point>, token: Token) -> Result<(), AllocError> {
    match token {
        Token::Open(node, _) => here.push(Point { node, offset: 0 })?,
        Token::Close => {
            let _left = here.pop();
            step(here);
        }
        Token::OneUnit(_) => step(here),
        Token::Mark(_, _) => {}
    }
    Ok(())
}

/// Returns the gap of a marker, as a point.
pub(crate) fn gap_of(
    alloc: Global,
    text: &[Token],
    mark: Token,
) -> Result<Option<Point>, AllocError> {
    let mut here = Vec::new(alloc);
    for token in text {
        if *token == mark {
            return Ok(here.last().copied());
        }
        pass(&mut here, *token)?;
    }
    Ok(None)
}

/// Returns the number of tokens before a point's gap.
pub(crate) fn ahead_of(alloc: Global, text: &[Token], point: Point) -> Result<usize, AllocError>
    ensures { IfOk result (λ ahead. ahead ≤ length text.now) }
{
    let mut here = Vec::new(alloc);
    for (ahead, token) in text.iter().enumerate() {
        if here.last().copied() == Some(point) {
            return Ok(ahead);
        }
        pass(&mut here, *token)?;
    }
    Ok(text.len())
}
