//! A command read from a line of JSON, and a reply printed as such a line.
#![tactic(auto)]

mod argument_decoder;
mod arguments;
mod command_names;
mod command_reader;
mod filters;
mod options;
mod position_printer;
mod read_error;
mod records;
mod reply_printer;
mod rows;
mod texts;
mod values;

pub use command_reader::read_line;
pub use dom_commands::{Brief, Command, OwnError, Reply};
pub use read_error::ReadError;
pub use reply_printer::write_reply;
