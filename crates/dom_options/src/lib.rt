//! The program's command line: the limits that its words set, by clap's own definition, and the text for words that set none.
#![tactic(auto)]

mod options;

pub use options::{Asked, Refusal, asked_from};
