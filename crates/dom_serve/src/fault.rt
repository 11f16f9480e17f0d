//! The outcomes of serving.

use thiserror::Error;

/// The reason why serving stopped before the end of the input.
#[derive(Clone, Copy, Debug, PartialEq, Eq, Error)]
pub enum Fault {
    /// A read failed.
    #[error("read failed")]
    Read,
    /// A write or a flush failed.
    #[error("write failed")]
    Write,
    /// The server is out of memory.
    #[error("out of memory")]
    Memory,
    /// The input did not end within the number of reads.
    #[error("input too long")]
    InputTooLong,
}

/// The outcome of serving the whole input.
#[derive(Clone, Copy, Debug, PartialEq, Eq)]
pub struct Summary {
    /// The number of lines with a reply.
    pub lines: u64,
}
