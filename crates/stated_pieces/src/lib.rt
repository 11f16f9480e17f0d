//! A reader and a writer that work in given pieces, and serving over them, for the tests of dialogues, streams, drawn texts and sizes.
#![tactic(auto)]

mod feeder;
mod runs;
mod taker;

pub use feeder::Feeder;
pub use runs::{Served, USUAL, all_taken, first_lines, in_pieces, newlines, serve_all};
pub use taker::Taker;
