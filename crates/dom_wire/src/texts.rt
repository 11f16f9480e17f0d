//! Reading numbers and texts.

ghost use Rattle.std.specs.Prelude.{◌≡◌, ◌≤◌, IfSome};
ghost use Rattle.serde_json.specs.View.{view, items_view};
ghost use Rattle.dom_model.specs.Commands.Line.{number_in, unit_in, each_item, text_in};
ghost use Rattle.dom_wire.specs.Reads.{Decodes};

use crate::read_error::ReadError;
use dom_commands::Units;
use dom_model::OwnError;
use serde_json::Value;
use std::alloc::Global;

/// Reads an integer from 0 to 4294967295.
pub(crate) fn number_in(value: &Value) -> Option<u32>
    ensures { result ≡ number_in (view value.now) }
{
    match value.as_u64() {
        Some(number) if number <= 4294967295 => Some(number as u32),
        _ => None,
    }
}

/// Reads a string as its units, or an array of units.
pub(crate) fn text_in(alloc: Global, value: &Value) -> Result<Units, ReadError>
    ensures { Decodes (λ units. units) result (text_in (view value.now)) }
{
    match value {
        Value::String(text) => match Units::from_str(alloc, text.as_str()) {
            Ok(units) => Ok(units),
            Err(_) => Err(ReadError::Memory),
        },
        Value::Array(items) => units_in(alloc, items.as_slice()),
        _ => Err(ReadError::Own(OwnError::BadArguments)),
    }
}

// Reads each item as a unit.
fn units_in(alloc: Global, items: &[Value]) -> Result<Units, ReadError>
    ensures { Decodes (λ units. units) result (each_item unit_in (items_view items.now)) }
{
    let Ok(mut units) = Vec::with_capacity(alloc, items.len()) else {
        return Err(ReadError::Memory);
    };
    for item in items {
        match item.as_u64() {
            Some(unit) if unit <= 65535 => {
                if units.push(unit as u16).is_err() {
                    return Err(ReadError::Memory);
                }
            }
            _ => return Err(ReadError::Own(OwnError::BadArguments)),
        }
    }
    match Units::from_units(alloc, units.as_slice()) {
        Ok(units) => Ok(units),
        Err(_) => Err(ReadError::Memory),
    }
}
