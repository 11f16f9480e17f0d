//! From a line to a command.

ghost use Rattle.std.specs.Prelude.{◌≡◌, map, find, option_map};
ghost use Rattle.serde_json.specs.Find.{as_array};
ghost use Rattle.serde_json.specs.View.{view};
ghost use Rattle.dom_model.specs.Commands.Table.{whole_table, no_arguments};
ghost use Rattle.dom_model.specs.Commands.Line.{command_of, command_in_array, command_among, if_arguments, arguments_from, is_row_of};
ghost use Rattle.dom_wire.specs.Reads.{ReadsCommand};
ghost use Rattle.dom_wire.specs.Rows.{row_of};

use crate::argument_decoder::arguments_of;
use crate::command_names::{Name, names_of_length};
use crate::read_error::ReadError;
use dom_commands::Command;
use dom_model::OwnError;
use serde_json::Value;
use std::alloc::Global;

/// Reads the command of a line, which has no newline, or returns its refusal: `BadJson`, `BadCommand` or `BadArguments`.
pub fn read_line(alloc: Global, line: &[u8]) -> Result<Command, ReadError>
    ensures { ReadsCommand result (command_of whole_table line.now) }
{
    match Value::from_slice(alloc, line) {
        Ok(value) => command_in(alloc, &value),
        Err(error) => {
            if error.is_memory() {
                return Err(ReadError::Memory);
            }
            Err(ReadError::Own(OwnError::BadJson))
        }
    }
}

fn command_in(alloc: Global, value: &Value) -> Result<Command, ReadError>
    ensures { ReadsCommand result (command_in_array whole_table (as_array (view value.now))) }
{
    match value {
        Value::Array(items) => command_among(alloc, items.as_slice()),
        _ => Err(ReadError::Own(OwnError::BadCommand)),
    }
}

// Reads a name first, and then its arguments.
fn command_among(alloc: Global, values: &[Value]) -> Result<Command, ReadError>
    ensures { ReadsCommand result (command_among whole_table (map view values.now)) }
{
    if let [Value::String(text), rest @ ..] = values
        && let Some(name) = named(text.as_str())
    {
        return with_arguments(alloc, name, rest);
    }
    Err(ReadError::Own(OwnError::BadCommand))
}

// Returns the name with that text. Only names of its length are compared.
fn named(text: &str) -> Option<Name>
    ensures { option_map row_of result ≡ find (is_row_of text.now) whole_table }
{
    named_among(names_of_length(text.len()), text)
}

fn named_among(names: &[Name], text: &str) -> Option<Name>
    ensures { option_map row_of result ≡ find (is_row_of text.now) (map row_of names.now) }
{
    for name in names {
        if name.text() == text {
            return Some(*name);
        }
    }
    None
}

fn with_arguments(alloc: Global, name: Name, values: &[Value]) -> Result<Command, ReadError>
    ensures { ReadsCommand result (if_arguments (row_of name)
        (arguments_from 0 (row_of name).shapes (map view values.now) no_arguments)) }
{
    match arguments_of(alloc, name.shapes(), values) {
        Ok(mut arguments) => Ok(name.command(alloc, &mut arguments)),
        Err(error) => Err(error),
    }
}
