//! Printing records of mutations, and the notified observers.

ghost use Rattle.std.specs.Prelude.{◌≡◌, [], ◌∷◌, map};
ghost use Rattle.serde_json.specs.Data.{string};
ghost use Rattle.dom_model.specs.Commands.Printed.{or_null, number_json, numbers_json, units_json, type_json, record_json, records_json, told_json, list_json};
ghost use Rattle.dom_wire.specs.Prints.{tokens_of, tokens_of_all, Adds};

use crate::values::{write_maybe_name, write_maybe_node, write_maybe_units, write_nodes};
use dom_commands::{Notification, Record, RecordType};
use json::Writer;
use std::alloc::{AllocError, Global};

/// Prints an array of observers, each with its records.
pub(crate) fn write_notified(
    alloc: Global,
    told: &[Notification],
    writer: &mut Writer,
) -> Result<(), AllocError>
    ensures { Adds result writer.old writer.new (tokens_of (list_json (map told_json told.now))) }
{
    writer.begin_array()?;
    for one in told {
        write_notification(alloc, one, writer)?;
    }
    writer.end_array()
}

fn write_notification(
    alloc: Global,
    told: &Notification,
    writer: &mut Writer,
) -> Result<(), AllocError>
    ensures { Adds result writer.old writer.new (tokens_of (told_json told.now)) }
{
    writer.begin_array()?;
    writer.u64(u64::from(told.observer.number()))?;
    write_records(alloc, told.records.as_slice(), writer)?;
    writer.end_array()
}

/// Prints an array of records.
pub(crate) fn write_records(
    alloc: Global,
    records: &[Record],
    writer: &mut Writer,
) -> Result<(), AllocError>
    ensures { Adds result writer.old writer.new (tokens_of (records_json records.now)) }
{
    writer.begin_array()?;
    for record in records {
        write_record(alloc, record, writer)?;
    }
    writer.end_array()
}

fn write_record(alloc: Global, told: &Record, writer: &mut Writer) -> Result<(), AllocError>
    ensures { Adds result writer.old writer.new (tokens_of (record_json told.now)) }
{
    writer.begin_array()?;
    write_change(told, writer)?;
    write_context(alloc, told, writer)?;
    writer.end_array()
}

// Prints type and target, and the nodes added and removed.
fn write_change(told: &Record, writer: &mut Writer) -> Result<(), AllocError>
    ensures { Adds result writer.old writer.new
        (tokens_of_all (type_json told.now.type ∷ number_json told.now.target
        ∷ numbers_json told.now.added ∷ numbers_json told.now.removed ∷ [])) }
{
    writer.string(type_name(told.what))?;
    writer.u64(u64::from(told.target.number()))?;
    write_nodes(told.added.as_slice(), writer)?;
    write_nodes(told.removed.as_slice(), writer)
}

// Prints the siblings, and then the name and the old value.
fn write_context(alloc: Global, told: &Record, writer: &mut Writer) -> Result<(), AllocError>
    ensures { Adds result writer.old writer.new
        (tokens_of_all (or_null number_json told.now.previous ∷ or_null number_json told.now.next
        ∷ or_null string told.now.name ∷ or_null units_json told.now.old_value ∷ [])) }
{
    write_maybe_node(told.previous, writer)?;
    write_maybe_node(told.next, writer)?;
    write_maybe_name(&told.name, writer)?;
    write_maybe_units(alloc, &told.old_value, writer)
}

// Returns the name of a record's type.
fn type_name(what: RecordType) -> &'static str
    ensures { string result.now ≡ type_json what }
{
    match what {
        RecordType::ChildList => "childList",
        RecordType::Attributes => "attributes",
        RecordType::CharacterData => "characterData",
    }
}
