//! The commands on the contents of a live range.

ghost use Rattle.std.specs.Prelude.{◌≡◌, Ok};
ghost use Rattle.dom_model.specs.Commands.Command.{RangeText, DeleteContents, ExtractContents, CloneContents, InsertNode, SurroundContents};
ghost use Rattle.dom_c.specs.Answers.{Answers};
ghost use Rattle.dom_c.specs.WrittenValues.{answer_of_call, number_out};

use crate::handle::Handle;
use dom_session::{Command, Contents, NodeId, RangeId};

/// Finds the text in a range: `hp_text` reads the answer.
#[unsafe(no_mangle)]
pub extern "C" fn hp_range_text(handle: &mut Handle, range: u32) -> u8
    ensures { Answers handle.old handle.new (Ok (RangeText range)) result }
{
    handle.take(Ok(Command::Contents(Contents::RangeText(RangeId::new(range)))))
}

/// Deletes the contents of a range.
#[unsafe(no_mangle)]
pub extern "C" fn hp_delete_contents(handle: &mut Handle, range: u32) -> u8
    ensures { Answers handle.old handle.new (Ok (DeleteContents range)) result }
{
    handle.take(Ok(Command::Contents(Contents::DeleteContents(RangeId::new(range)))))
}

/// Moves the contents of a range into a fragment.
#[unsafe(no_mangle)]
pub extern "C" fn hp_extract_contents(handle: &mut Handle, range: u32, fragment: &mut u32) -> u8
    ensures answers { Answers handle.old handle.new (Ok (ExtractContents range)) result }
    ensures told { fragment.new ≡ number_out (answer_of_call handle.new result) fragment.old }
{
    handle.take_number(
        Ok(Command::Contents(Contents::ExtractContents(RangeId::new(range)))),
        fragment,
    )
}

/// Copies the contents of a range into a fragment.
#[unsafe(no_mangle)]
pub extern "C" fn hp_clone_contents(handle: &mut Handle, range: u32, fragment: &mut u32) -> u8
    ensures answers { Answers handle.old handle.new (Ok (CloneContents range)) result }
    ensures told { fragment.new ≡ number_out (answer_of_call handle.new result) fragment.old }
{
    handle.take_number(
        Ok(Command::Contents(Contents::CloneContents(RangeId::new(range)))),
        fragment,
    )
}

/// Inserts a node at the start of a range.
#[unsafe(no_mangle)]
pub extern "C" fn hp_insert_node(handle: &mut Handle, range: u32, node: u32) -> u8
    ensures { Answers handle.old handle.new (Ok (InsertNode range node)) result }
{
    handle.take(Ok(Command::Contents(Contents::InsertNode(RangeId::new(range), NodeId::new(node)))))
}

/// Moves the contents of a range into a node, and inserts the node in their place.
#[unsafe(no_mangle)]
pub extern "C" fn hp_surround_contents(handle: &mut Handle, range: u32, parent: u32) -> u8
    ensures { Answers handle.old handle.new (Ok (SurroundContents range parent)) result }
{
    handle.take(Ok(Command::Contents(Contents::SurroundContents(
        RangeId::new(range),
        NodeId::new(parent),
    ))))
}
