//! Errors of reading a command.

use dom_model::OwnError;

/// The error of a line that gives no command.
#[derive(Clone, Copy, Debug, PartialEq, Eq)]
pub enum ReadError {
    /// The refusal of the line.
    Own(OwnError),
    /// Out of memory.
    Memory,
}
