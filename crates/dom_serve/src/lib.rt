//! The server: bytes to lines, lines to replies, replies to bytes, over any reader and writer with the contracts of `Source` and `Sink`.
#![tactic(auto)]

mod fault;
mod from_read;
mod last_error;
pub mod laws;
mod line_input;
mod line_output;
mod one_read;
mod replies;
mod serve_loop;
mod server;
mod streams;
mod to_write;

pub use dom_session::Limits;
pub use dom_wire::{ReadError, read_line, write_reply};
pub use fault::{Fault, Summary};
pub use from_read::FromRead;
pub use last_error::LastError;
pub use line_output::write_line;
pub use one_read::OneRead;
pub use serve_loop::{serve, serve_within};
pub use streams::{Failed, Sink, Source};
pub use to_write::ToWrite;
