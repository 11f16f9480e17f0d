//! The questions about nodes.

ghost use Rattle.std.specs.Prelude.{◌≡◌, Ok};
ghost use Rattle.dom_model.specs.Commands.Command.{DescribeNode, Children, Index, Length, Root, IsContaining, IsEqual, ComparePosition, TextContent, Tree};
ghost use Rattle.dom_c.specs.Answers.{Answers, Asks};
ghost use Rattle.dom_c.specs.Arguments.{number_or_none};
ghost use Rattle.dom_c.specs.WrittenValues.{answer_of_call, as_answered, count_out, flag_out, number_out};
ghost use Rattle.dom_c.specs.Positions.{position_out};

use crate::arguments::node_or_none;
use crate::handle::Handle;
use crate::positions::NodePosition;
use crate::status::HP_OK;
use crate::write_positions::{kind_number, node_number};
use dom_session::{Answer, Asking, Command, Copying, NodeId, Reading, Reply, Texts};

/// Writes a node's kind and its neighbours; `hp_node_name` lends its names.
#[unsafe(no_mangle)]
pub extern "C" fn hp_node(handle: &mut Handle, node: u32, place: &mut NodePosition) -> u8
    ensures answers { Answers handle.old handle.new (Ok (DescribeNode node)) result }
    ensures told { place.new ≡ position_out (answer_of_call handle.new result) place.old }
{
    let status = handle.take(Ok(Command::Asking(Asking::DescribeNode(NodeId::new(node)))));
    if handle.is_open && status == HP_OK {
        let kept = &handle.slot.lend().kept;
        if let Some(Reply::Done(Answer::NodeAt(found))) = &kept.reply {
            *place = NodePosition {
                document: found.document.number(),
                kind: kind_number(found.label.kind),
                next: node_number(found.next),
                parent: node_number(found.parent),
                previous: node_number(found.previous),
            };
        }
    }
    status
}

/// Finds the children of a node: `hp_count` and `hp_number_at` read the answer.
#[unsafe(no_mangle)]
pub extern "C" fn hp_children(handle: &mut Handle, node: u32) -> u8
    ensures { Answers handle.old handle.new (Ok (Children node)) result }
{
    handle.take(Ok(Command::Asking(Asking::Children(NodeId::new(node)))))
}

/// Writes the number of siblings before a node.
#[unsafe(no_mangle)]
pub extern "C" fn hp_index(handle: &mut Handle, node: u32, index: &mut usize) -> u8
    ensures answers { Asks handle.old handle.new (Ok (Index node)) result }
    ensures told { index.new ≡ count_out (answer_of_call handle.new (as_answered result)) index.old }
{
    handle.read_count(Reading::Index(NodeId::new(node)), index)
}

/// Writes the length of a node.
#[unsafe(no_mangle)]
pub extern "C" fn hp_length(handle: &mut Handle, node: u32, length: &mut usize) -> u8
    ensures answers { Asks handle.old handle.new (Ok (Length node)) result }
    ensures told { length.new ≡ count_out (answer_of_call handle.new (as_answered result)) length.old }
{
    handle.read_count(Reading::Length(NodeId::new(node)), length)
}

/// Writes the root of a node.
#[unsafe(no_mangle)]
pub extern "C" fn hp_root(handle: &mut Handle, node: u32, root: &mut u32) -> u8
    ensures answers { Asks handle.old handle.new (Ok (Root node)) result }
    ensures told { root.new ≡ number_out (answer_of_call handle.new (as_answered result)) root.old }
{
    handle.read_number(Reading::Root(NodeId::new(node)), root)
}

/// Writes whether another node is an inclusive descendant; `HP_NONE` is not.
#[unsafe(no_mangle)]
pub extern "C" fn hp_contains(handle: &mut Handle, node: u32, other: u32, contains: &mut u8) -> u8
    ensures answers { Answers handle.old handle.new (Ok (IsContaining node (number_or_none other)))
        result }
    ensures told { contains.new ≡ flag_out (answer_of_call handle.new result) contains.old }
{
    handle.take_flag(
        Ok(Command::Copying(Copying::IsContaining(NodeId::new(node), node_or_none(other)))),
        contains,
    )
}

/// Writes whether both nodes are equal; `HP_NONE` equals none.
#[unsafe(no_mangle)]
pub extern "C" fn hp_is_equal(handle: &mut Handle, node: u32, other: u32, is_equal: &mut u8) -> u8
    ensures answers { Answers handle.old handle.new (Ok (IsEqual node (number_or_none other)))
        result }
    ensures told { is_equal.new ≡ flag_out (answer_of_call handle.new result) is_equal.old }
{
    handle.take_flag(
        Ok(Command::Copying(Copying::IsEqual(NodeId::new(node), node_or_none(other)))),
        is_equal,
    )
}

/// Writes the position of the second node relative to the first, as the bits of the standard.
#[unsafe(no_mangle)]
pub extern "C" fn hp_compare_position(
    handle: &mut Handle,
    node: u32,
    other: u32,
    position: &mut u32,
) -> u8
    ensures answers { Answers handle.old handle.new (Ok (ComparePosition node other)) result }
    ensures told { position.new ≡ number_out (answer_of_call handle.new result) position.old }
{
    handle.take_number(
        Ok(Command::Copying(Copying::ComparePosition(NodeId::new(node), NodeId::new(other)))),
        position,
    )
}

/// Finds the text in a node: `hp_text` reads the answer, and has none if it is null.
#[unsafe(no_mangle)]
pub extern "C" fn hp_text_content(handle: &mut Handle, node: u32) -> u8
    ensures { Answers handle.old handle.new (Ok (TextContent node)) result }
{
    handle.take(Ok(Command::Texts(Texts::TextContent(NodeId::new(node)))))
}

/// Prints a node and its descendants, in tree order: `hp_count` counts the rows, `hp_row_at` and the other row calls read them.
#[unsafe(no_mangle)]
pub extern "C" fn hp_tree(handle: &mut Handle, node: u32) -> u8
    ensures { Answers handle.old handle.new (Ok (Tree node)) result }
{
    handle.take(Ok(Command::Asking(Asking::Tree(NodeId::new(node)))))
}
