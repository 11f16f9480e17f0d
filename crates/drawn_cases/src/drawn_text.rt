//! Drawing the token text of a tree, and writing it as letters.

use crate::replies::{Row, Told};
use crate::tokens::{Ends, Point, Side, Sign, Token, pass};
use std::alloc::{AllocError, Global};

// Appends the closes of open nodes down to a depth.
fn close_down(text: &mut Vec<Token>, depth: u64, open: u64) -> Result<(), AllocError> {
    for _closed in depth..open {
        text.push(Token::Close)?;
    }
    Ok(())
}

/// Appends units.
pub(crate) fn push_units(text: &mut Vec<Token>, units: &[u8]) -> Result<(), AllocError> {
    for unit in units {
        text.push(Token::OneUnit(*unit))?;
    }
    Ok(())
}

// Appends the text of a tree, without markers.
fn push_tree(text: &mut Vec<Token>, rows: &[Row]) -> Result<(), AllocError> {
    let mut open = 0;
    for row in rows {
        close_down(text, row.depth, open)?;
        text.push(Token::Open(row.number, row.sign))?;
        push_units(text, row.units.as_slice())?;
        open = row.depth.saturating_add(1);
    }
    close_down(text, 0, open)
}

// Appends the markers of one gap: in the order of their ranges, and for each range the start before the end.
fn push_marks(text: &mut Vec<Token>, point: Point, ranges: &[Ends]) -> Result<(), AllocError> {
    for (range, ends) in ranges.iter().enumerate() {
        if ends.start == point {
            text.push(Token::Mark(range, Side::Start))?;
        }
        if ends.end == point {
            text.push(Token::Mark(range, Side::End))?;
        }
    }
    Ok(())
}

// Appends a token of a tree, and before it the markers of the current gap.
fn push_marked(
    text: &mut Vec<Token>,
    here: &mut Vec<Point>,
    token: Token,
    ranges: &[Ends],
) -> Result<(), AllocError> {
    let innermost = here.last().copied();
    if let Some(point) = innermost {
        push_marks(text, point, ranges)?;
    }
    text.push(token)?;
    pass(here, token)
}

// Returns the tokens of a tree, with a marker for each end.
fn marked(alloc: Global, tree: &[Token], ranges: &[Ends]) -> Result<Vec<Token>, AllocError> {
    let mut text = Vec::new(alloc);
    let mut here = Vec::new(alloc);
    for token in tree {
        push_marked(&mut text, &mut here, *token, ranges)?;
    }
    Ok(text)
}

/// Returns the text of a tree, with a marker for each end.
pub(crate) fn draw(alloc: Global, told: &Told) -> Result<Vec<Token>, AllocError> {
    let mut tree = Vec::new(alloc);
    push_tree(&mut tree, told.rows.as_slice())?;
    marked(alloc, tree.as_slice(), told.ranges.as_slice())
}

fn open_written(letters: &mut String, sign: Sign) -> Result<(), AllocError> {
    match sign {
        Sign::Tag(letter) => {
            letters.push('<')?;
            letters.push(char::from(letter))?;
            letters.push('>')
        }
        Sign::Quotes => letters.push('"'),
    }
}

fn close_written(letters: &mut String, sign: Sign) -> Result<(), AllocError> {
    match sign {
        Sign::Tag(letter) => {
            letters.push_str("</")?;
            letters.push(char::from(letter))?;
            letters.push('>')
        }
        Sign::Quotes => letters.push('"'),
    }
}

// Writes a token, and updates the open signs.
fn write_token(letters: &mut String, open: &mut Vec<Sign>, token: Token) -> Result<(), AllocError> {
    match token {
        Token::Open(_, sign) => {
            open.push(sign)?;
            open_written(letters, sign)
        }
        Token::Close => match open.pop() {
            Some(sign) => close_written(letters, sign),
            None => Ok(()),
        },
        Token::OneUnit(unit) => letters.push(char::from(unit)),
        Token::Mark(range, Side::Start) => write!(letters, "[{range}"),
        Token::Mark(range, Side::End) => write!(letters, "]{range}"),
    }
}

/// Returns a text as letters.
pub(crate) fn written(alloc: Global, text: &[Token]) -> Result<String, AllocError> {
    let mut letters = String::new(alloc);
    let mut open = Vec::new(alloc);
    for token in text {
        write_token(&mut letters, &mut open, *token)?;
    }
    Ok(letters)
}
