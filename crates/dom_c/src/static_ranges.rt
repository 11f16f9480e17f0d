//! The commands of static ranges.

ghost use Rattle.std.specs.Prelude.{◌≡◌, Ok};
ghost use Rattle.dom_model.specs.Commands.Command.{CreateStaticRange, DescribeStaticRange, ReleaseStaticRange};
ghost use Rattle.dom_c.specs.Answers.{Answers, Asks};
ghost use Rattle.dom_c.specs.WrittenValues.{answer_of_call, as_answered, number_out};
ghost use Rattle.dom_c.specs.Positions.{static_ends_out};

use crate::handle::Handle;
use crate::positions::StaticEnds;
use crate::status::{HP_OK, as_answered};
use crate::write_numbers::flag_number;
use dom_session::{Answer, Command, NodeId, Point, Reading, Reply, StaticId, StaticRanging};

/// Makes a static range.
#[unsafe(no_mangle)]
pub extern "C" fn hp_create_static_range(
    handle: &mut Handle,
    start: u32,
    start_offset: u32,
    end: u32,
    end_offset: u32,
    range: &mut u32,
) -> u8
    ensures answers { Answers handle.old handle.new
        (Ok (CreateStaticRange (record { node = start; offset = start_offset })
        (record { node = end; offset = end_offset }))) result }
    ensures told { range.new ≡ number_out (answer_of_call handle.new result) range.old }
{
    handle.take_number(
        Ok(Command::StaticRanging(StaticRanging::CreateStaticRange(
            Point {
                node: NodeId::new(start),
                offset: start_offset as usize,
            },
            Point {
                node: NodeId::new(end),
                offset: end_offset as usize,
            },
        ))),
        range,
    )
}

/// Writes the ends of a static range, and whether it is valid.
#[unsafe(no_mangle)]
pub extern "C" fn hp_static_range(handle: &mut Handle, range: u32, ends: &mut StaticEnds) -> u8
    ensures answers { Asks handle.old handle.new (Ok (DescribeStaticRange range)) result }
    ensures told { ends.new ≡ static_ends_out (answer_of_call handle.new (as_answered result)) ends.old }
{
    let status = handle.read(Reading::StaticRange(StaticId::new(range)));
    if handle.is_open && as_answered(status) == HP_OK {
        let kept = &handle.slot.lend().kept;
        if let Some(Reply::Done(Answer::StaticEnds(start, end, is_valid))) = &kept.reply {
            *ends = StaticEnds {
                start: start.node.number(),
                start_offset: start.offset,
                end: end.node.number(),
                end_offset: end.offset,
                is_valid: flag_number(*is_valid),
            };
        }
    }
    status
}

/// Releases a static range.
#[unsafe(no_mangle)]
pub extern "C" fn hp_release_static_range(handle: &mut Handle, range: u32) -> u8
    ensures { Answers handle.old handle.new (Ok (ReleaseStaticRange range)) result }
{
    handle.take(Ok(Command::StaticRanging(StaticRanging::ReleaseStaticRange(StaticId::new(range)))))
}
