//! A node's payload: its data or its attributes.
#![tactic(auto)]

mod content;
mod tail;

pub use content::Content;
