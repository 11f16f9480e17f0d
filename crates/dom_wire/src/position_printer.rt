//! Printing the positions of nodes, ranges, iterators and walkers.

ghost use Rattle.std.specs.Prelude.{[], ◌∷◌, ◌++◌, codes, decimal};
ghost use Rattle.json.specs.Token.{key, number, string};
ghost use Rattle.json.specs.Tree.{members_tokens};
ghost use Rattle.serde_json.specs.Data.{boolean, member};
ghost use Rattle.serde_json.specs.Written.{members_outline};
ghost use Rattle.dom_model.specs.Forests.Kinds.{node_name};
ghost use Rattle.dom_model.specs.Commands.Printed.{or_null, number_json, list_json, ends_json, ids_members, description_json};
ghost use Rattle.dom_wire.specs.Prints.{tokens_of, tokens_of_all, Adds};

use crate::values::write_maybe_node;
use dom_commands::{Description, Kind, Label, NodeId, Point};
use dom_kinds::NodeType;
use json::Writer;
use std::alloc::AllocError;

/// Prints a node as an object, its keys in ASCII order.
pub(crate) fn write_description(node: &Description, writer: &mut Writer) -> Result<(), AllocError>
    ensures { Adds result writer.old writer.new (tokens_of (description_json node.now)) }
{
    writer.begin_object()?;
    write_document_and_name(node, writer)?;
    write_from_next(node, writer)
}

fn write_document_and_name(node: &Description, writer: &mut Writer) -> Result<(), AllocError>
    ensures { Adds result writer.old writer.new
        (key (codes "document") ∷ number (decimal node.now.document)
        ∷ key (codes "name") ∷ string (node_name node.now.label) ∷ []) }
{
    writer.key("document")?;
    writer.u64(u64::from(node.document.number()))?;
    writer.key("name")?;
    writer.string(node.label.node_name())
}

// Prints the members from `next` on, and the end of the object.
fn write_from_next(node: &Description, writer: &mut Writer) -> Result<(), AllocError>
    ensures { Adds result writer.old writer.new (members_tokens (members_outline
        (member (codes "next") (or_null number_json node.now.next)
        (member (codes "parent") (or_null number_json node.now.parent)
        (member (codes "previous") (or_null number_json node.now.previous)
        (ids_members node.now.label.kind node.now.label)))))) }
{
    write_neighbour("next", node.next, writer)?;
    write_neighbour("parent", node.parent, writer)?;
    write_neighbour("previous", node.previous, writer)?;
    write_ids_and_type(&node.label, writer)
}

// Prints a key and its node.
fn write_neighbour(name: &str, node: Option<NodeId>, writer: &mut Writer) -> Result<(), AllocError>
    ensures { Adds result writer.old writer.new
        (key name.now ∷ tokens_of (or_null number_json node)) }
{
    writer.key(name)?;
    write_maybe_node(node, writer)
}

// Prints both ids of a doctype, and then the type, which is the last member.
fn write_ids_and_type(label: &Label, writer: &mut Writer) -> Result<(), AllocError>
    ensures { Adds result writer.old writer.new
        (members_tokens (members_outline (ids_members label.now.kind label.now))) }
{
    if let Kind::DocumentType = label.kind {
        writer.key("public")?;
        writer.string(label.public_id())?;
        writer.key("system")?;
        writer.string(label.system_id())?;
    }
    writer.key("type")?;
    writer.u64(u64::from(label.kind.number()))?;
    writer.end_object()
}

// Prints the node and the offset of each end.
fn write_points(start: Point, end: Point, writer: &mut Writer) -> Result<(), AllocError>
    ensures { Adds result writer.old writer.new
        (tokens_of_all (ends_json (record { start = start; end = end }))) }
{
    writer.u64(u64::from(start.node.number()))?;
    writer.u64(start.offset as u64)?;
    writer.u64(u64::from(end.node.number()))?;
    writer.u64(end.offset as u64)
}

/// Prints an array of both ends.
pub(crate) fn write_ends(start: Point, end: Point, writer: &mut Writer) -> Result<(), AllocError>
    ensures { Adds result writer.old writer.new
        (tokens_of (list_json (ends_json (record { start = start; end = end })))) }
{
    writer.begin_array()?;
    write_points(start, end, writer)?;
    writer.end_array()
}

/// Prints an array of both ends, and whether the range is valid.
pub(crate) fn write_static_ends(
    start: Point,
    end: Point,
    is_valid: bool,
    writer: &mut Writer,
) -> Result<(), AllocError>
    ensures { Adds result writer.old writer.new (tokens_of (list_json
        (ends_json (record { start = start; end = end }) ++ boolean is_valid ∷ []))) }
{
    writer.begin_array()?;
    write_points(start, end, writer)?;
    writer.boolean(is_valid)?;
    writer.end_array()
}

/// Prints an array of the root and the reference, and whether the pointer is before it.
pub(crate) fn write_iterator(
    root: NodeId,
    reference: NodeId,
    is_before: bool,
    writer: &mut Writer,
) -> Result<(), AllocError>
    ensures { Adds result writer.old writer.new (tokens_of (list_json
        (number_json root ∷ number_json reference ∷ boolean is_before ∷ []))) }
{
    writer.begin_array()?;
    writer.u64(u64::from(root.number()))?;
    writer.u64(u64::from(reference.number()))?;
    writer.boolean(is_before)?;
    writer.end_array()
}

/// Prints an array of the root and the current node.
pub(crate) fn write_walker(
    root: NodeId,
    current: NodeId,
    writer: &mut Writer,
) -> Result<(), AllocError>
    ensures { Adds result writer.old writer.new (tokens_of (list_json
        (number_json root ∷ number_json current ∷ []))) }
{
    writer.begin_array()?;
    writer.u64(u64::from(root.number()))?;
    writer.u64(u64::from(current.number()))?;
    writer.end_array()
}
