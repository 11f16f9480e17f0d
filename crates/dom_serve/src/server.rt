//! The state of a server: a session, and the current line.

use dom_session::Session;
use std::alloc::Global;

/// A session, and the buffered bytes of a line without its newline. There are at most as many as the limit of a line.
#[derive(Drop)]
pub struct Server {
    pub alloc: Global,
    pub session: Session,
    pub line: usize,
    pub kept: Vec<u8>,
    pub too_long: bool,
    pub lines: u64,
}
