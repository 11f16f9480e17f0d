//! Reading the arguments of C.

ghost use Rattle.std.specs.Prelude.{◌≡◌, Ok, Err, OnErr, string_bytes};
ghost use Rattle.dom_c.specs.Statuses.{bad_choice};
ghost use Rattle.dom_c.specs.Arguments.{ReadsArgument, utf8_name, number_or_none, choice_in, move_of_number};

use crate::argument_fault::ArgumentFault;
use crate::status::HP_NONE;
use dom_session::{Move, NodeId, Units};
use std::alloc::Global;

/// Borrows a name, which is UTF-8.
pub(crate) fn lent_name(bytes: &[u8]) -> Result<&str, ArgumentFault>
    ensures { ReadsArgument (λ name. name.now) result (utf8_name bytes.now) }
{
    match str::from_utf8(bytes) {
        Ok(name) => Ok(name),
        Err(_) => Err(ArgumentFault::NotUtf8),
    }
}

/// Returns a copy of a name, which is UTF-8.
pub(crate) fn name_of(alloc: Global, bytes: &[u8]) -> Result<String, ArgumentFault>
    ensures { ReadsArgument string_bytes result (utf8_name bytes.now) }
{
    let Ok(text) = str::from_utf8(bytes) else {
        return Err(ArgumentFault::NotUtf8);
    };
    match String::from_str(alloc, text) {
        Ok(name) => Ok(name),
        Err(_) => Err(ArgumentFault::Memory),
    }
}

/// Returns a copy of a text.
pub(crate) fn units_of(alloc: Global, units: &[u16]) -> Result<Units, ArgumentFault>
    ensures { ReadsArgument (λ text. text) result (Ok units.now) }
{
    match Units::from_units(alloc, units) {
        Ok(text) => Ok(text),
        Err(_) => Err(ArgumentFault::Memory),
    }
}

/// Returns the node of a number, or none.
pub(crate) fn node_or_none(number: u32) -> Option<NodeId>
    ensures { result ≡ number_or_none number }
{
    if number == HP_NONE {
        return None;
    }
    Some(NodeId::new(number))
}

/// Returns true, false or neither.
pub(crate) fn choice_of(number: u8) -> Result<Option<bool>, ArgumentFault>
    ensures { ReadsArgument (λ choice. choice) result (choice_in number) }
{
    match number {
        0 => Ok(Some(false)),
        1 => Ok(Some(true)),
        2 => Ok(None),
        _ => Err(ArgumentFault::BadChoice),
    }
}

/// Returns the move of a walker.
pub(crate) fn move_of(number: u8) -> Result<Move, ArgumentFault>
    ensures read { ReadsArgument (λ direction. direction) result (move_of_number number) }
    ensures fault { OnErr result (move_of_number number ≡ Err bad_choice) }
{
    match number {
        0 => Ok(Move::ParentNode),
        1 => Ok(Move::FirstChild),
        2 => Ok(Move::LastChild),
        3 => Ok(Move::PreviousSibling),
        4 => Ok(Move::NextSibling),
        5 => Ok(Move::PreviousNode),
        6 => Ok(Move::NextNode),
        _ => Err(ArgumentFault::BadChoice),
    }
}
