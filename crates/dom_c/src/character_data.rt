//! The commands on character data.

ghost use Rattle.std.specs.Prelude.{◌≡◌, Ok};
ghost use Rattle.dom_model.specs.Commands.Command.{GetData, SetData, AppendData, InsertData, DeleteData, ReplaceData, SubstringData, SplitText};
ghost use Rattle.dom_c.specs.Answers.{Answers};
ghost use Rattle.dom_c.specs.WrittenValues.{answer_of_call, number_out};

use crate::arguments::units_of;
use crate::handle::Handle;
use dom_session::{Command, NodeId, Texts};
use std::alloc::Global;

/// Finds the data of a node: `hp_text` reads the answer.
#[unsafe(no_mangle)]
pub extern "C" fn hp_data(handle: &mut Handle, node: u32) -> u8
    ensures { Answers handle.old handle.new (Ok (GetData node)) result }
{
    handle.take(Ok(Command::Texts(Texts::GetData(NodeId::new(node)))))
}

/// Sets the data of a node.
#[unsafe(no_mangle)]
pub extern "C" fn hp_set_data(handle: &mut Handle, alloc: Global, node: u32, data: &[u16]) -> u8
    ensures { Answers handle.old handle.new (Ok (SetData node data.now)) result }
{
    handle.take(units_of(alloc, data).map(|data| Command::Texts(Texts::SetData(
        NodeId::new(node),
        data,
    ))))
}

/// Appends to the data of a node.
#[unsafe(no_mangle)]
pub extern "C" fn hp_append_data(handle: &mut Handle, alloc: Global, node: u32, data: &[u16]) -> u8
    ensures { Answers handle.old handle.new (Ok (AppendData node data.now)) result }
{
    handle.take(units_of(alloc, data).map(|data| Command::Texts(Texts::AppendData(
        NodeId::new(node),
        data,
    ))))
}

/// Inserts at an offset.
#[unsafe(no_mangle)]
pub extern "C" fn hp_insert_data(
    handle: &mut Handle,
    alloc: Global,
    node: u32,
    offset: u32,
    data: &[u16],
) -> u8
    ensures { Answers handle.old handle.new (Ok (InsertData node offset data.now)) result }
{
    handle.take(units_of(alloc, data).map(|data| Command::Texts(Texts::InsertData(
        NodeId::new(node),
        offset,
        data,
    ))))
}

/// Deletes a number of units from an offset on.
#[unsafe(no_mangle)]
pub extern "C" fn hp_delete_data(handle: &mut Handle, node: u32, offset: u32, count: u32) -> u8
    ensures { Answers handle.old handle.new (Ok (DeleteData node offset count)) result }
{
    handle.take(Ok(Command::Texts(Texts::DeleteData(NodeId::new(node), offset, count))))
}

/// Replaces a number of units from an offset on by a text.
#[unsafe(no_mangle)]
pub extern "C" fn hp_replace_data(
    handle: &mut Handle,
    alloc: Global,
    node: u32,
    offset: u32,
    count: u32,
    data: &[u16],
) -> u8
    ensures { Answers handle.old handle.new (Ok (ReplaceData node offset count data.now)) result }
{
    handle.take(units_of(alloc, data).map(|data| Command::Texts(Texts::ReplaceData(
        NodeId::new(node),
        offset,
        count,
        data,
    ))))
}

/// Finds a number of units from an offset on: `hp_text` reads the answer.
#[unsafe(no_mangle)]
pub extern "C" fn hp_substring_data(handle: &mut Handle, node: u32, offset: u32, count: u32) -> u8
    ensures { Answers handle.old handle.new (Ok (SubstringData node offset count)) result }
{
    handle.take(Ok(Command::Texts(Texts::SubstringData(NodeId::new(node), offset, count))))
}

/// Splits a Text at an offset, and writes the new one.
#[unsafe(no_mangle)]
pub extern "C" fn hp_split_text(handle: &mut Handle, text: u32, offset: u32, rest: &mut u32) -> u8
    ensures answers { Answers handle.old handle.new (Ok (SplitText text offset)) result }
    ensures told { rest.new ≡ number_out (answer_of_call handle.new result) rest.old }
{
    handle.take_number(
        Ok(Command::Texts(Texts::SplitText(NodeId::new(text), offset))),
        rest,
    )
}
