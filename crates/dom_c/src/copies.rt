//! The commands that copy nodes.

ghost use Rattle.std.specs.Prelude.{◌≡◌, Ok};
ghost use Rattle.dom_model.specs.Commands.Command.{ImportNode, CloneNode};
ghost use Rattle.dom_c.specs.Answers.{Answers};
ghost use Rattle.dom_c.specs.WrittenValues.{answer_of_call, number_out};

use crate::handle::Handle;
use dom_session::{Command, Copying, NodeId};

/// Copies a node for another document, with or without its descendants.
#[unsafe(no_mangle)]
pub extern "C" fn hp_import_node(
    handle: &mut Handle,
    document: u32,
    node: u32,
    deep: bool,
    copy: &mut u32,
) -> u8
    ensures answers { Answers handle.old handle.new (Ok (ImportNode document node deep)) result }
    ensures told { copy.new ≡ number_out (answer_of_call handle.new result) copy.old }
{
    handle.take_number(
        Ok(Command::Copying(Copying::ImportNode(NodeId::new(document), NodeId::new(node), deep))),
        copy,
    )
}

/// Copies a node, with or without its descendants.
#[unsafe(no_mangle)]
pub extern "C" fn hp_clone_node(handle: &mut Handle, node: u32, deep: bool, copy: &mut u32) -> u8
    ensures answers { Answers handle.old handle.new (Ok (CloneNode node deep)) result }
    ensures told { copy.new ≡ number_out (answer_of_call handle.new result) copy.old }
{
    handle.take_number(
        Ok(Command::Copying(Copying::CloneNode(NodeId::new(node), deep))),
        copy,
    )
}
