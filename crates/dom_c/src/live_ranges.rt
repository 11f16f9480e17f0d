//! The commands that make live ranges and set their ends.

ghost use Rattle.std.specs.Prelude.{◌≡◌, Ok};
ghost use Rattle.dom_model.specs.Commands.Command.{CreateRange, CloneRange, DescribeRange, SetStart, SetEnd, SetStartBefore, SetStartAfter, SetEndBefore, SetEndAfter, Collapse, SelectNode, SelectNodeContents, ReleaseRange};
ghost use Rattle.dom_c.specs.Answers.{Answers, Asks};
ghost use Rattle.dom_c.specs.WrittenValues.{answer_of_call, as_answered, number_out};
ghost use Rattle.dom_c.specs.Positions.{ends_out};

use crate::handle::Handle;
use crate::positions::Ends;
use crate::status::{HP_OK, as_answered};
use dom_session::{Answer, Command, NodeId, RangeId, Ranging, Reading, Reply, Setting};

/// Makes a live range at the start of a document.
#[unsafe(no_mangle)]
pub extern "C" fn hp_create_range(handle: &mut Handle, document: u32, range: &mut u32) -> u8
    ensures answers { Answers handle.old handle.new (Ok (CreateRange document)) result }
    ensures told { range.new ≡ number_out (answer_of_call handle.new result) range.old }
{
    handle.take_number(
        Ok(Command::Ranging(Ranging::CreateRange(NodeId::new(document)))),
        range,
    )
}

/// Makes a live range with the ends of another.
#[unsafe(no_mangle)]
pub extern "C" fn hp_clone_range(handle: &mut Handle, range: u32, copy: &mut u32) -> u8
    ensures answers { Answers handle.old handle.new (Ok (CloneRange range)) result }
    ensures told { copy.new ≡ number_out (answer_of_call handle.new result) copy.old }
{
    handle.take_number(
        Ok(Command::Ranging(Ranging::CloneRange(RangeId::new(range)))),
        copy,
    )
}

/// Writes the ends of a live range.
#[unsafe(no_mangle)]
pub extern "C" fn hp_range(handle: &mut Handle, range: u32, ends: &mut Ends) -> u8
    ensures answers { Asks handle.old handle.new (Ok (DescribeRange range)) result }
    ensures told { ends.new ≡ ends_out (answer_of_call handle.new (as_answered result)) ends.old }
{
    let status = handle.read(Reading::Range(RangeId::new(range)));
    if handle.is_open && as_answered(status) == HP_OK {
        let kept = &handle.slot.lend().kept;
        if let Some(Reply::Done(Answer::Ends(start, end))) = &kept.reply {
            *ends = Ends {
                start: start.node.number(),
                start_offset: start.offset,
                end: end.node.number(),
                end_offset: end.offset,
            };
        }
    }
    status
}

/// Sets the start.
#[unsafe(no_mangle)]
pub extern "C" fn hp_set_start(handle: &mut Handle, range: u32, node: u32, offset: u32) -> u8
    ensures { Answers handle.old handle.new (Ok (SetStart range node offset)) result }
{
    handle.take(Ok(Command::Setting(Setting::SetStart(
        RangeId::new(range),
        NodeId::new(node),
        offset,
    ))))
}

/// Sets the end.
#[unsafe(no_mangle)]
pub extern "C" fn hp_set_end(handle: &mut Handle, range: u32, node: u32, offset: u32) -> u8
    ensures { Answers handle.old handle.new (Ok (SetEnd range node offset)) result }
{
    handle.take(Ok(Command::Setting(Setting::SetEnd(
        RangeId::new(range),
        NodeId::new(node),
        offset,
    ))))
}

/// Sets the start before a node.
#[unsafe(no_mangle)]
pub extern "C" fn hp_set_start_before(handle: &mut Handle, range: u32, node: u32) -> u8
    ensures { Answers handle.old handle.new (Ok (SetStartBefore range node)) result }
{
    handle.take(Ok(Command::Setting(Setting::SetStartBefore(
        RangeId::new(range),
        NodeId::new(node),
    ))))
}

/// Sets the start after a node.
#[unsafe(no_mangle)]
pub extern "C" fn hp_set_start_after(handle: &mut Handle, range: u32, node: u32) -> u8
    ensures { Answers handle.old handle.new (Ok (SetStartAfter range node)) result }
{
    handle.take(Ok(Command::Setting(Setting::SetStartAfter(
        RangeId::new(range),
        NodeId::new(node),
    ))))
}

/// Sets the end before a node.
#[unsafe(no_mangle)]
pub extern "C" fn hp_set_end_before(handle: &mut Handle, range: u32, node: u32) -> u8
    ensures { Answers handle.old handle.new (Ok (SetEndBefore range node)) result }
{
    handle.take(Ok(Command::Setting(Setting::SetEndBefore(RangeId::new(range), NodeId::new(node)))))
}

/// Sets the end after a node.
#[unsafe(no_mangle)]
pub extern "C" fn hp_set_end_after(handle: &mut Handle, range: u32, node: u32) -> u8
    ensures { Answers handle.old handle.new (Ok (SetEndAfter range node)) result }
{
    handle.take(Ok(Command::Setting(Setting::SetEndAfter(RangeId::new(range), NodeId::new(node)))))
}

/// Moves one end to the other: the end to the start, or the start to the end.
#[unsafe(no_mangle)]
pub extern "C" fn hp_collapse(handle: &mut Handle, range: u32, to_start: bool) -> u8
    ensures { Answers handle.old handle.new (Ok (Collapse range to_start)) result }
{
    handle.take(Ok(Command::Setting(Setting::Collapse(RangeId::new(range), to_start))))
}

/// Sets the ends around a node.
#[unsafe(no_mangle)]
pub extern "C" fn hp_select_node(handle: &mut Handle, range: u32, node: u32) -> u8
    ensures { Answers handle.old handle.new (Ok (SelectNode range node)) result }
{
    handle.take(Ok(Command::Setting(Setting::SelectNode(RangeId::new(range), NodeId::new(node)))))
}

/// Sets the ends around the contents of a node.
#[unsafe(no_mangle)]
pub extern "C" fn hp_select_node_contents(handle: &mut Handle, range: u32, node: u32) -> u8
    ensures { Answers handle.old handle.new (Ok (SelectNodeContents range node)) result }
{
    handle.take(Ok(Command::Setting(Setting::SelectNodeContents(
        RangeId::new(range),
        NodeId::new(node),
    ))))
}

/// Releases a live range.
#[unsafe(no_mangle)]
pub extern "C" fn hp_release_range(handle: &mut Handle, range: u32) -> u8
    ensures { Answers handle.old handle.new (Ok (ReleaseRange range)) result }
{
    handle.take(Ok(Command::Ranging(Ranging::ReleaseRange(RangeId::new(range)))))
}
