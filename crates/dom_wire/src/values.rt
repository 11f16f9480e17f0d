//! Printing numbers, texts and names.

ghost use Rattle.std.specs.Prelude.{map, string_bytes};
ghost use Rattle.serde_json.specs.Data.{string};
ghost use Rattle.dom_model.specs.Commands.Printed.{or_null, number_json, numbers_json, units_json, names_json, order_json};
ghost use Rattle.dom_observe.specs.Names.{name_of};
ghost use Rattle.dom_wire.specs.Prints.{tokens_of, Adds};

use dom_commands::{NodeId, Units, text_of};
use json::Writer;
use std::alloc::{AllocError, Global};
use std::cmp::Ordering;

/// Prints -1, 0 or 1.
pub(crate) fn write_order(order: Ordering, writer: &mut Writer) -> Result<(), AllocError>
    ensures { Adds result writer.old writer.new (tokens_of (order_json order)) }
{
    match order {
        Ordering::Less => writer.i64(-1),
        Ordering::Equal => writer.u64(0),
        Ordering::Greater => writer.u64(1),
    }
}

/// Prints the number, or null.
pub(crate) fn write_maybe_number(number: Option<u32>, writer: &mut Writer) -> Result<(), AllocError>
    ensures { Adds result writer.old writer.new (tokens_of (or_null number_json number)) }
{
    match number {
        None => writer.null(),
        Some(number) => writer.u64(u64::from(number)),
    }
}

/// Prints the number of the node, or null.
pub(crate) fn write_maybe_node(node: Option<NodeId>, writer: &mut Writer) -> Result<(), AllocError>
    ensures { Adds result writer.old writer.new (tokens_of (or_null number_json node)) }
{
    match node {
        None => writer.null(),
        Some(node) => writer.u64(u64::from(node.number())),
    }
}

/// Prints the name, or null.
pub(crate) fn write_maybe_name(name: &Option<String>, writer: &mut Writer) -> Result<(), AllocError>
    ensures { Adds result writer.old writer.new (tokens_of (or_null string (name_of name.now))) }
{
    match name {
        None => writer.null(),
        Some(name) => writer.string(name.as_str()),
    }
}

/// Prints a text, or null.
pub(crate) fn write_maybe_units(
    alloc: Global,
    units: &Option<Units>,
    writer: &mut Writer,
) -> Result<(), AllocError>
    ensures { Adds result writer.old writer.new (tokens_of (or_null units_json units.now)) }
{
    match units {
        None => writer.null(),
        Some(units) => write_units(alloc, units.units(), writer),
    }
}

/// Prints a string if the units are well-formed, or else their numbers.
pub(crate) fn write_units(
    alloc: Global,
    units: &[u16],
    writer: &mut Writer,
) -> Result<(), AllocError>
    ensures { Adds result writer.old writer.new (tokens_of (units_json units.now)) }
{
    match text_of(alloc, units)? {
        Some(text) => writer.string(text.as_str()),
        None => write_each_unit(units, writer),
    }
}

fn write_each_unit(units: &[u16], writer: &mut Writer) -> Result<(), AllocError>
    ensures { Adds result writer.old writer.new (tokens_of (numbers_json units.now)) }
{
    writer.begin_array()?;
    for unit in units {
        writer.u64(u64::from(*unit))?;
    }
    writer.end_array()
}

/// Prints an array of numbers.
pub(crate) fn write_numbers(numbers: &[u32], writer: &mut Writer) -> Result<(), AllocError>
    ensures { Adds result writer.old writer.new (tokens_of (numbers_json numbers.now)) }
{
    writer.begin_array()?;
    for number in numbers {
        writer.u64(u64::from(*number))?;
    }
    writer.end_array()
}

/// Prints an array of the numbers of nodes.
pub(crate) fn write_nodes(nodes: &[NodeId], writer: &mut Writer) -> Result<(), AllocError>
    ensures { Adds result writer.old writer.new (tokens_of (numbers_json nodes.now)) }
{
    writer.begin_array()?;
    for node in nodes {
        writer.u64(u64::from(node.number()))?;
    }
    writer.end_array()
}

/// Prints an array of names.
pub(crate) fn write_names(names: &[String], writer: &mut Writer) -> Result<(), AllocError>
    ensures { Adds result writer.old writer.new
        (tokens_of (names_json (map string_bytes names.now))) }
{
    writer.begin_array()?;
    for name in names {
        writer.string(name.as_str())?;
    }
    writer.end_array()
}
