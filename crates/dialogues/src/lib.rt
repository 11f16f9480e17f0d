//! Inputs, and their expected outputs: the plain files of dialogues, as tools/rows.py writes them.
#![tactic(auto)]

pub mod bad_input;
pub mod lines_and_limits;
pub mod observers;
pub mod ranges;
pub mod traversal;
pub mod trees_and_data;

/// The bytes of a table: a text, or bytes that are not UTF-8.
#[derive(Drop)]
pub enum Bytes {
    Text(&'static str),
    Raw(&'static [u8]),
}

/// An input under limits, and its expected output.
#[derive(Drop)]
pub struct Dialogue {
    pub name: &'static str,
    pub numbers: u64,
    pub line: usize,
    pub given: Bytes,
    pub due: &'static str,
}

impl Dialogue {
    pub fn input(&self) -> &'static [u8] {
        match self.given {
            Bytes::Text(text) => text.as_bytes(),
            Bytes::Raw(bytes) => bytes,
        }
    }

    pub fn output(&self) -> &'static [u8] {
        self.due.as_bytes()
    }
}
