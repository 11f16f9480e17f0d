//! The commands on static ranges (DOM Standard, "Interface StaticRange").

ghost use Rattle.std.specs.Prelude.{◌≡◌, ◌≤◌, IfOk, OnErr};
ghost use Rattle.dom_model.specs.Commands.Command.{CreateStaticRange, DescribeStaticRange, ReleaseStaticRange};
ghost use Rattle.dom_model.specs.Commands.Guards.{Bounds};
ghost use Rattle.dom_edit.specs.Whole.{IsShown, IsWhole};
ghost use Rattle.dom_commands.specs.Views.{static_ranging_view};
ghost use Rattle.dom_session.specs.SessionViews.{IsStep, RepliesTo};
ghost use Rattle.dom_session.specs.OutOfMemory.{KeepsWholeWorld};
ghost use Rattle.dom_session.specs.AnswerBounds.{numbered};

use dom_commands::{Answer, Brief, Reply, StaticRanging};
use dom_edit::World;
use dom_model::OwnError;
use dom_point::Point;
use dom_ranges::{StaticId, Statics};
use std::alloc::AllocError;

/// Makes a static range. Its offsets may lie past the lengths of its nodes.
pub(crate) fn create_static_range(
    world: &mut World,
    numbers: u64,
    start: Point,
    end: Point,
) -> Result<Reply, AllocError>
    requires numbers { numbers ≤ 4294967295 }
    requires shown { IsShown world.old }
    ensures step { IfOk result (IsStep world.old world.new (numbered numbers)
        (CreateStaticRange start end)) }
    ensures left { OnErr result (KeepsWholeWorld world.old world.new) }
    ensures unchanged { OnErr result (world.new ≡ world.old) }
{
    if !world.tree.holds(start.node) || !world.tree.holds(end.node) {
        return Ok(Reply::Brief(Brief::Own(OwnError::NoSuchObject)));
    }
    if numbers <= world.statics.made() {
        return Ok(Reply::Brief(Brief::Own(OwnError::Limit)));
    }
    match Statics::check(&world.tree, start.node, end.node) {
        Ok(()) => {
            let id = world.statics.make(start, end)?;
            Ok(Reply::Brief(Brief::Number(id.number())))
        }
        Err(error) => Ok(Reply::Brief(Brief::Dom(error))),
    }
}

/// Tells where a static range starts and ends, and whether it is valid as the tree stands.
pub(crate) fn describe_static_range(world: &mut World, range: StaticId) -> Reply
    requires whole { IsWhole world.old }
    ensures step { (b : Bounds) → IsStep world.old world.new b (DescribeStaticRange range) result }
    ensures own { RepliesTo world.old (DescribeStaticRange range) result }
    ensures unchanged { world.new ≡ world.old }
{
    if !world.statics.holds(range) {
        return Reply::Brief(Brief::Own(OwnError::NoSuchObject));
    }
    let (start, end) = world.statics.ends(range);
    let is_valid = world.statics.is_valid(&mut world.tree, range);
    Reply::Done(Answer::StaticEnds(start, end, is_valid))
}

/// Lets a static range go: it keeps no tree from being discarded, and its number is not used again.
pub(crate) fn release_static_range(world: &mut World, range: StaticId) -> Reply
    requires shown { IsShown world.old }
    ensures step { (b : Bounds) → IsStep world.old world.new b (ReleaseStaticRange range) result }
{
    if !world.statics.holds(range) {
        return Reply::Brief(Brief::Own(OwnError::NoSuchObject));
    }
    world.statics.release(range);
    Reply::Brief(Brief::Nothing)
}

/// Answers the commands on static ranges.
pub(crate) fn act_on_statics(
    world: &mut World,
    numbers: u64,
    command: StaticRanging,
) -> Result<Reply, AllocError>
    requires numbers { numbers ≤ 4294967295 }
    requires shown { IsShown world.old }
    ensures step { IfOk result (IsStep world.old world.new (numbered numbers)
        (static_ranging_view command)) }
    ensures left { OnErr result (KeepsWholeWorld world.old world.new) }
    ensures unchanged { OnErr result (world.new ≡ world.old) }
{
    match command {
        StaticRanging::CreateStaticRange(start, end) => create_static_range(
            world, numbers, start, end,
        ),
        StaticRanging::DescribeStaticRange(range) => Ok(describe_static_range(world, range)),
        StaticRanging::ReleaseStaticRange(range) => Ok(release_static_range(world, range)),
    }
}
