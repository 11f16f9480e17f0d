//! The tree and the live ranges that replies contain.

use crate::tokens::{Ends, Point, Sign};
use serde_json::Value;
use std::alloc::Global;
use std::test::Fail;

/// A node of a reply. Its data is ASCII.
#[derive(Drop)]
pub struct Row {
    pub depth: u64,
    pub number: u64,
    pub sign: Sign,
    pub units: Vec<u8>,
}

/// A tree and its live ranges, from replies.
#[derive(Drop)]
pub struct Told {
    pub rows: Vec<Row>,
    pub ranges: Vec<Ends>,
}

fn number_at(items: &Value, place: usize) -> Result<u64, Fail> {
    let number = items.get(place).and_then(Value::as_u64);
    Ok(number.ok_or("a number is due")?)
}

fn text_at(items: &Value, place: usize) -> Result<&str, Fail> {
    let text = items.get(place).and_then(Value::as_str);
    Ok(text.ok_or("a text is due")?)
}

const ELEMENT: u64 = 1;

// Returns the sign of a node: a tag for an element, quotes for a node with data.
fn sign_in(row: &Value) -> Result<Sign, Fail> {
    if number_at(row, 2)? != ELEMENT {
        return Ok(Sign::Quotes);
    }
    match text_at(row, 3)?.as_bytes() {
        [letter] => Ok(Sign::Tag(*letter)),
        _ => Err(Fail::new("a name of one letter is due")),
    }
}

// Returns a row of a tree: depth, number, kind, name, and attributes or data.
fn row_in(alloc: Global, row: &Value) -> Result<Row, Fail> {
    let sign = sign_in(row)?;
    let data = match sign {
        Sign::Tag(_) => "",
        Sign::Quotes => text_at(row, 4)?,
    };
    Ok(Row {
        depth: number_at(row, 0)?,
        number: number_at(row, 1)?,
        sign,
        units: Vec::from_slice(alloc, data.as_bytes())?,
    })
}

fn push_rows(rows: &mut Vec<Row>, alloc: Global, reply: &Value) -> Result<(), Fail> {
    let items = reply.get("ok").and_then(Value::as_array);
    for item in items.ok_or("rows are due")? {
        rows.push(row_in(alloc, item)?)?;
    }
    Ok(())
}

fn ends_in(reply: &Value) -> Result<Ends, Fail> {
    let items = reply.get("ok").ok_or("ends are due")?;
    let start = Point {
        node: number_at(items, 0)?,
        offset: number_at(items, 1)?,
    };
    let end = Point {
        node: number_at(items, 2)?,
        offset: number_at(items, 3)?,
    };
    Ok(Ends { start, end })
}

impl Told {
    // Reads a reply: the first one is the tree, each other a live range.
    fn take(&mut self, alloc: Global, place: usize, line: &str) -> Result<(), Fail> {
        let reply = Value::from_str(alloc, line)?;
        if place == 0 {
            return push_rows(&mut self.rows, alloc, &reply);
        }
        self.ranges.push(ends_in(&reply)?)?;
        Ok(())
    }
}

/// Returns the tree and the live ranges of the replies from a line on. The first reply is the tree, and a count of others the ranges.
pub(crate) fn told_from(
    alloc: Global,
    replies: &str,
    first: usize,
    ranges: usize,
) -> Result<Told, Fail> {
    let mut told = Told {
        rows: Vec::new(alloc),
        ranges: Vec::new(alloc),
    };
    for (place, line) in replies
        .lines()
        .skip(first)
        .take(ranges.saturating_add(1))
        .enumerate()
    {
        told.take(alloc, place, line)?;
    }
    Ok(told)
}
