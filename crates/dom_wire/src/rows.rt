//! Printing the rows of a tree.

ghost use Rattle.std.specs.Prelude.{◌≡◌, [], ◌∷◌, map};
ghost use Rattle.json.specs.Token.{string};
ghost use Rattle.dom_model.specs.Commands.Printed.{attribute_json, row_json, detail_json, list_json};
ghost use Rattle.dom_wire.specs.Prints.{tokens_of, tokens_of_all, Adds};

use crate::values::write_units;
use dom_commands::{Content, Kind, Label, TreeRow, Units};
use dom_kinds::NodeType;
use json::Writer;
use std::alloc::{AllocError, Global};

/// Prints an array of rows.
pub(crate) fn write_rows(
    alloc: Global,
    rows: &[TreeRow],
    writer: &mut Writer,
) -> Result<(), AllocError>
    ensures { Adds result writer.old writer.new (tokens_of (list_json (map row_json rows.now))) }
{
    writer.begin_array()?;
    for row in rows {
        write_row(alloc, row, writer)?;
    }
    writer.end_array()
}

// Prints depth, number, kind and name, and then the members of the kind.
fn write_row(alloc: Global, row: &TreeRow, writer: &mut Writer) -> Result<(), AllocError>
    ensures { Adds result writer.old writer.new (tokens_of (row_json row.now)) }
{
    writer.begin_array()?;
    writer.u64(row.depth as u64)?;
    writer.u64(u64::from(row.number.number()))?;
    writer.u64(u64::from(row.label.kind.number()))?;
    writer.string(row.label.node_name())?;
    write_detail(alloc, row, writer)?;
    writer.end_array()
}

fn write_detail(alloc: Global, row: &TreeRow, writer: &mut Writer) -> Result<(), AllocError>
    ensures { Adds result writer.old writer.new
        (tokens_of_all (detail_json row.now.label.kind row.now.label row.now.body)) }
{
    match row.label.kind {
        Kind::Element => write_attributes(alloc, &row.body, writer),
        Kind::Text | Kind::ProcessingInstruction | Kind::Comment => {
            write_units(alloc, row.body.text(), writer)
        }
        Kind::Document | Kind::DocumentFragment => Ok(()),
        Kind::DocumentType => write_ids(&row.label, writer),
    }
}

fn write_attributes(alloc: Global, body: &Content, writer: &mut Writer) -> Result<(), AllocError>
    ensures { Adds result writer.old writer.new
        (tokens_of (list_json (map attribute_json body.now.attributes))) }
{
    writer.begin_array()?;
    for index in 0..body.attribute_count() {
        let (name, value) = body.pair_at(index);
        write_attribute(alloc, name, value, writer)?;
    }
    writer.end_array()
}

fn write_attribute(
    alloc: Global,
    name: &str,
    value: &Units,
    writer: &mut Writer,
) -> Result<(), AllocError>
    ensures { Adds result writer.old writer.new
        (tokens_of (attribute_json (record { name = name.now; value = value.now }))) }
{
    writer.begin_array()?;
    writer.string(name)?;
    write_units(alloc, value.units(), writer)?;
    writer.end_array()
}

fn write_ids(label: &Label, writer: &mut Writer) -> Result<(), AllocError>
    ensures { Adds result writer.old writer.new
        (string label.now.public_id ∷ string label.now.system_id ∷ []) }
{
    writer.string(label.public_id())?;
    writer.string(label.system_id())
}
