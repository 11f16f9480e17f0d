//! The questions that compare points and live ranges.

ghost use Rattle.std.specs.Prelude.{◌≡◌, Ok};
ghost use Rattle.dom_model.specs.Commands.Command.{CompareBoundaryPoints, ComparePoint, IsPointInRange, IntersectsNode, CommonAncestor};
ghost use Rattle.dom_c.specs.Answers.{Answers};
ghost use Rattle.dom_c.specs.WrittenValues.{answer_of_call, flag_out, number_out, order_out};

use crate::handle::Handle;
use dom_session::{Command, Comparing, NodeId, RangeId};

/// Compares an end of the first range with one of the second; `how` is 0 to 3, as the standard numbers them.
#[unsafe(no_mangle)]
pub extern "C" fn hp_compare_boundary_points(
    handle: &mut Handle,
    range: u32,
    how: u32,
    source: u32,
    order: &mut i8,
) -> u8
    ensures answers { Answers handle.old handle.new (Ok (CompareBoundaryPoints range how source))
        result }
    ensures told { order.new ≡ order_out (answer_of_call handle.new result) order.old }
{
    handle.take_order(
        Ok(Command::Comparing(Comparing::CompareBoundaryPoints(
            RangeId::new(range),
            how,
            RangeId::new(source),
        ))),
        order,
    )
}

/// Writes whether a point is before, in or after a range: -1, 0 or 1.
#[unsafe(no_mangle)]
pub extern "C" fn hp_compare_point(
    handle: &mut Handle,
    range: u32,
    node: u32,
    offset: u32,
    order: &mut i8,
) -> u8
    ensures answers { Answers handle.old handle.new (Ok (ComparePoint range node offset)) result }
    ensures told { order.new ≡ order_out (answer_of_call handle.new result) order.old }
{
    handle.take_order(
        Ok(Command::Comparing(Comparing::ComparePoint(
            RangeId::new(range),
            NodeId::new(node),
            offset,
        ))),
        order,
    )
}

/// Writes whether a point is in a range.
#[unsafe(no_mangle)]
pub extern "C" fn hp_is_point_in_range(
    handle: &mut Handle,
    range: u32,
    node: u32,
    offset: u32,
    is_in: &mut u8,
) -> u8
    ensures answers { Answers handle.old handle.new (Ok (IsPointInRange range node offset)) result }
    ensures told { is_in.new ≡ flag_out (answer_of_call handle.new result) is_in.old }
{
    handle.take_flag(
        Ok(Command::Comparing(Comparing::IsPointInRange(
            RangeId::new(range),
            NodeId::new(node),
            offset,
        ))),
        is_in,
    )
}

/// Writes whether a range intersects a node.
#[unsafe(no_mangle)]
pub extern "C" fn hp_intersects_node(
    handle: &mut Handle,
    range: u32,
    node: u32,
    intersects: &mut u8,
) -> u8
    ensures answers { Answers handle.old handle.new (Ok (IntersectsNode range node)) result }
    ensures told { intersects.new ≡ flag_out (answer_of_call handle.new result) intersects.old }
{
    handle.take_flag(
        Ok(Command::Comparing(Comparing::IntersectsNode(RangeId::new(range), NodeId::new(node)))),
        intersects,
    )
}

/// Writes the deepest inclusive ancestor of both ends.
#[unsafe(no_mangle)]
pub extern "C" fn hp_common_ancestor(handle: &mut Handle, range: u32, ancestor: &mut u32) -> u8
    ensures answers { Answers handle.old handle.new (Ok (CommonAncestor range)) result }
    ensures told { ancestor.new ≡ number_out (answer_of_call handle.new result) ancestor.old }
{
    handle.take_number(
        Ok(Command::Comparing(Comparing::CommonAncestor(RangeId::new(range)))),
        ancestor,
    )
}
