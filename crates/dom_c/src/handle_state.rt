//! The state of a handle, on the heap.

use dom_session::{Reply, Session};
use std::alloc::Global;

/// A session, the last reply, the last line that was printed, the limit of bytes of a line, and whether the session is out of memory.
#[derive(Drop)]
pub struct HandleState {
    pub session: Session,
    pub reply: Option<Reply>,
    pub line: Vec<u8>,
    pub limit: usize,
    pub ended: bool,
    pub alloc: Global,
}
