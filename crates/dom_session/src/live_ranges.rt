//! The commands that make, tell and release live ranges (DOM Standard, "Ranges").

ghost use Rattle.std.specs.Prelude.{◌≡◌, ◌≤◌, IfOk, OnErr};
ghost use Rattle.dom_model.specs.Commands.Command.{CreateRange, CloneRange, DescribeRange, ReleaseRange};
ghost use Rattle.dom_model.specs.Commands.Guards.{Bounds};
ghost use Rattle.dom_edit.specs.Whole.{IsShown};
ghost use Rattle.dom_commands.specs.Views.{ranging_view};
ghost use Rattle.dom_session.specs.SessionViews.{IsStep, RepliesTo};
ghost use Rattle.dom_session.specs.OutOfMemory.{KeepsWholeWorld};
ghost use Rattle.dom_session.specs.AnswerBounds.{numbered};

use dom_commands::{Answer, Brief, Ranging, Reply};
use dom_edit::World;
use dom_kinds::{DomError, Kind};
use dom_model::OwnError;
use dom_point::Point;
use dom_ranges::RangeId;
use dom_tree::NodeId;
use std::alloc::AllocError;

/// Makes a live range whose ends both stand at the start of a document.
pub(crate) fn create_range(
    world: &mut World,
    numbers: u64,
    document: NodeId,
) -> Result<Reply, AllocError>
    requires numbers { numbers ≤ 4294967295 }
    requires shown { IsShown world.old }
    ensures step { IfOk result (IsStep world.old world.new (numbered numbers)
        (CreateRange document)) }
    ensures left { OnErr result (KeepsWholeWorld world.old world.new) }
    ensures unchanged { OnErr result (world.new ≡ world.old) }
{
    if !world.tree.holds(document) {
        return Ok(Reply::Brief(Brief::Own(OwnError::NoSuchObject)));
    }
    if world.tree.label(document).kind != Kind::Document {
        return Ok(Reply::Brief(Brief::Dom(DomError::TypeError)));
    }
    if numbers <= world.ranges.made() {
        return Ok(Reply::Brief(Brief::Own(OwnError::Limit)));
    }
    let start = Point {
        node: document,
        offset: 0,
    };
    let id = world.ranges.make(&world.tree, start, start)?;
    Ok(Reply::Brief(Brief::Number(id.number())))
}

/// Makes a live range with the ends of another.
pub(crate) fn clone_range(
    world: &mut World,
    numbers: u64,
    range: RangeId,
) -> Result<Reply, AllocError>
    requires numbers { numbers ≤ 4294967295 }
    requires shown { IsShown world.old }
    ensures step { IfOk result (IsStep world.old world.new (numbered numbers) (CloneRange range)) }
    ensures left { OnErr result (KeepsWholeWorld world.old world.new) }
    ensures unchanged { OnErr result (world.new ≡ world.old) }
{
    if !world.ranges.holds(range) {
        return Ok(Reply::Brief(Brief::Own(OwnError::NoSuchObject)));
    }
    if numbers <= world.ranges.made() {
        return Ok(Reply::Brief(Brief::Own(OwnError::Limit)));
    }
    let (start, end) = world.ranges.ends(range);
    let id = world.ranges.make(&world.tree, start, end)?;
    Ok(Reply::Brief(Brief::Number(id.number())))
}

/// Tells where a live range starts and ends.
pub(crate) fn describe_range(world: &World, range: RangeId) -> Reply
    ensures step { (b : Bounds) → IsStep world.now world.now b (DescribeRange range) result }
    ensures own { RepliesTo world.now (DescribeRange range) result }
{
    if !world.ranges.holds(range) {
        return Reply::Brief(Brief::Own(OwnError::NoSuchObject));
    }
    let (start, end) = world.ranges.ends(range);
    Reply::Done(Answer::Ends(start, end))
}

/// Lets a live range go: it is adjusted no more, and its number is not used again.
pub(crate) fn release_range(world: &mut World, range: RangeId) -> Reply
    requires shown { IsShown world.old }
    ensures step { (b : Bounds) → IsStep world.old world.new b (ReleaseRange range) result }
{
    if !world.ranges.holds(range) {
        return Reply::Brief(Brief::Own(OwnError::NoSuchObject));
    }
    world.ranges.release(range);
    Reply::Brief(Brief::Nothing)
}

/// Answers the commands that make, tell and release live ranges.
pub(crate) fn act_on_ranges(
    world: &mut World,
    numbers: u64,
    command: Ranging,
) -> Result<Reply, AllocError>
    requires numbers { numbers ≤ 4294967295 }
    requires shown { IsShown world.old }
    ensures step { IfOk result (IsStep world.old world.new (numbered numbers)
        (ranging_view command)) }
    ensures left { OnErr result (KeepsWholeWorld world.old world.new) }
    ensures unchanged { OnErr result (world.new ≡ world.old) }
{
    match command {
        Ranging::CreateRange(document) => create_range(world, numbers, document),
        Ranging::CloneRange(range) => clone_range(world, numbers, range),
        Ranging::DescribeRange(range) => Ok(describe_range(world, range)),
        Ranging::ReleaseRange(range) => Ok(release_range(world, range)),
    }
}
