//! Replies with small answers. They are passed by value, and take no memory of their own.

use dom_kinds::DomError;
use dom_model::OwnError;

/// The reply to a command that is refused, or answered by nothing or by the number of an object.
#[derive(Clone, Copy, Debug, PartialEq, Eq)]
pub enum Brief {
    /// No value.
    Nothing,
    /// The number of an object, or one of the standard's constants.
    Number(u32),
    /// The number of an object, if there is one.
    MaybeNumber(Option<u32>),
    Dom(DomError),
    Own(OwnError),
}
