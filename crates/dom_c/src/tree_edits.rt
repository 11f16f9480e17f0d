//! The commands that change a tree.

ghost use Rattle.std.specs.Prelude.{Ok};
ghost use Rattle.dom_model.specs.Commands.Command.{InsertBefore, AppendChild, AdoptNode, ReplaceChild, RemoveChild, Remove, ReplaceChildren, Normalize, SetTextContent, Discard};
ghost use Rattle.dom_c.specs.Answers.{Answers};
ghost use Rattle.dom_c.specs.Arguments.{number_or_none};

use crate::arguments::{node_or_none, units_of};
use crate::handle::Handle;
use dom_session::{Command, Editing, NodeId, Texts};
use std::alloc::Global;

/// Inserts a node into a parent, before a child; with `HP_NONE` as the child, last.
#[unsafe(no_mangle)]
pub extern "C" fn hp_insert_before(handle: &mut Handle, parent: u32, node: u32, child: u32) -> u8
    ensures { Answers handle.old handle.new
        (Ok (InsertBefore parent node (number_or_none child))) result }
{
    handle.edit(Editing::InsertBefore(NodeId::new(parent), NodeId::new(node), node_or_none(child)))
}

/// Appends a node to the children of a parent.
#[unsafe(no_mangle)]
pub extern "C" fn hp_append_child(handle: &mut Handle, parent: u32, node: u32) -> u8
    ensures { Answers handle.old handle.new (Ok (AppendChild parent node)) result }
{
    handle.edit(Editing::AppendChild(NodeId::new(parent), NodeId::new(node)))
}

/// Adopts a node into a document.
#[unsafe(no_mangle)]
pub extern "C" fn hp_adopt_node(handle: &mut Handle, document: u32, node: u32) -> u8
    ensures { Answers handle.old handle.new (Ok (AdoptNode document node)) result }
{
    handle.edit(Editing::AdoptNode(NodeId::new(document), NodeId::new(node)))
}

/// Replaces a child by a node.
#[unsafe(no_mangle)]
pub extern "C" fn hp_replace_child(handle: &mut Handle, parent: u32, node: u32, child: u32) -> u8
    ensures { Answers handle.old handle.new (Ok (ReplaceChild parent node child)) result }
{
    handle.edit(Editing::ReplaceChild(NodeId::new(parent), NodeId::new(node), NodeId::new(child)))
}

/// Removes a child.
#[unsafe(no_mangle)]
pub extern "C" fn hp_remove_child(handle: &mut Handle, parent: u32, child: u32) -> u8
    ensures { Answers handle.old handle.new (Ok (RemoveChild parent child)) result }
{
    handle.edit(Editing::RemoveChild(NodeId::new(parent), NodeId::new(child)))
}

/// Removes a node from its parent, if it has one.
#[unsafe(no_mangle)]
pub extern "C" fn hp_remove(handle: &mut Handle, node: u32) -> u8
    ensures { Answers handle.old handle.new (Ok (Remove node)) result }
{
    handle.edit(Editing::Remove(NodeId::new(node)))
}

/// Replaces all children by a node, or with `HP_NONE` by none.
#[unsafe(no_mangle)]
pub extern "C" fn hp_replace_children(handle: &mut Handle, parent: u32, node: u32) -> u8
    ensures { Answers handle.old handle.new
        (Ok (ReplaceChildren parent (number_or_none node))) result }
{
    handle.edit(Editing::ReplaceChildren(NodeId::new(parent), node_or_none(node)))
}

/// Joins adjacent Text nodes below a node, and removes empty ones.
#[unsafe(no_mangle)]
pub extern "C" fn hp_normalize(handle: &mut Handle, node: u32) -> u8
    ensures { Answers handle.old handle.new (Ok (Normalize node)) result }
{
    handle.take(Ok(Command::Texts(Texts::Normalize(NodeId::new(node)))))
}

/// Replaces the contents of a node by a text.
#[unsafe(no_mangle)]
pub extern "C" fn hp_set_text_content(
    handle: &mut Handle,
    alloc: Global,
    node: u32,
    text: &[u16],
) -> u8
    ensures { Answers handle.old handle.new (Ok (SetTextContent node text.now)) result }
{
    handle.take(units_of(alloc, text).map(|text| Command::Texts(Texts::SetTextContent(
        NodeId::new(node),
        text,
    ))))
}

/// Frees a node and its descendants.
#[unsafe(no_mangle)]
pub extern "C" fn hp_discard(handle: &mut Handle, node: u32) -> u8
    ensures { Answers handle.old handle.new (Ok (Discard node)) result }
{
    handle.edit(Editing::Discard(NodeId::new(node)))
}
