//! The contents of live ranges (DOM Standard, "Interface Range").

ghost use Rattle.std.specs.Prelude.{◌≡◌, ◌≤◌, IfOk, OnErr, true};
ghost use Rattle.dom_model.specs.Commands.Command.{RangeText, DeleteContents, ExtractContents, CloneContents, InsertNode, SurroundContents};
ghost use Rattle.dom_model.specs.Commands.Guards.{Bounds};
ghost use Rattle.dom_edit.specs.Whole.{IsShown};
ghost use Rattle.dom_commands.specs.Views.{contents_view};
ghost use Rattle.dom_session.specs.SessionViews.{IsStep};
ghost use Rattle.dom_session.specs.OutOfMemory.{KeepsWholeWorld};
ghost use Rattle.dom_session.specs.GoingOn.{goes_on};
ghost use Rattle.dom_session.specs.AnswerBounds.{numbered};

use crate::copies::lacks_numbers;
use crate::refusals::reply_to;
use dom_commands::{Answer, Brief, Contents, Reply};
use dom_edit::World;
use dom_model::OwnError;
use dom_point::Point;
use dom_ranges::RangeId;
use dom_tree::NodeId;
use std::alloc::{AllocError, Global};

/// Returns the data of the Texts in a live range.
pub(crate) fn range_text(world: &World, alloc: Global, range: RangeId) -> Result<Reply, AllocError>
    requires shown { IsShown world.now }
    ensures { IfOk result (λ reply. (b : Bounds) →
        IsStep world.now world.now b (RangeText range) reply) }
{
    if !world.ranges.holds(range) {
        return Ok(Reply::Brief(Brief::Own(OwnError::NoSuchObject)));
    }
    let text = dom_content::range_text(world, alloc, range)?;
    Ok(Reply::Done(Answer::Units(text)))
}

/// Deletes the contents of a live range.
pub(crate) fn delete_contents(
    world: &mut World,
    alloc: Global,
    range: RangeId,
) -> Result<Reply, AllocError>
    requires shown { IsShown world.old }
    ensures step { IfOk result (λ reply. (b : Bounds) →
        IsStep world.old world.new b (DeleteContents range) reply) }
    ensures left { OnErr result (KeepsWholeWorld world.old world.new) }
{
    if !world.ranges.holds(range) {
        return Ok(Reply::Brief(Brief::Own(OwnError::NoSuchObject)));
    }
    dom_content::delete_contents(world, alloc, range)?;
    Ok(Reply::Brief(Brief::Nothing))
}

/// Moves the contents of a live range into a new fragment, and returns the fragment.
pub(crate) fn extract_contents(
    world: &mut World,
    numbers: u64,
    alloc: Global,
    range: RangeId,
) -> Result<Reply, AllocError>
    requires numbers { numbers ≤ 4294967295 }
    requires shown { IsShown world.old }
    ensures step { IfOk result (IsStep world.old world.new (numbered numbers)
        (ExtractContents range)) }
    ensures left { OnErr result (KeepsWholeWorld world.old world.new) }
{
    if !world.ranges.holds(range) {
        return Ok(Reply::Brief(Brief::Own(OwnError::NoSuchObject)));
    }
    if lacks_numbers(world, numbers) {
        return Ok(Reply::Brief(Brief::Own(OwnError::Limit)));
    }
    match dom_content::extract(world, alloc, range) {
        Ok(fragment) => Ok(Reply::Brief(Brief::Number(fragment.number()))),
        Err(refusal) => reply_to(refusal),
    }
}

/// Copies the contents of a live range into a new fragment, and returns the fragment.
pub(crate) fn clone_contents(
    world: &mut World,
    numbers: u64,
    alloc: Global,
    range: RangeId,
) -> Result<Reply, AllocError>
    requires numbers { numbers ≤ 4294967295 }
    requires shown { IsShown world.old }
    ensures step { IfOk result (IsStep world.old world.new (numbered numbers)
        (CloneContents range)) }
    ensures left { OnErr result (KeepsWholeWorld world.old world.new) }
{
    if !world.ranges.holds(range) {
        return Ok(Reply::Brief(Brief::Own(OwnError::NoSuchObject)));
    }
    if lacks_numbers(world, numbers) {
        return Ok(Reply::Brief(Brief::Own(OwnError::Limit)));
    }
    match dom_content::clone_contents(world, alloc, range) {
        Ok(fragment) => Ok(Reply::Brief(Brief::Number(fragment.number()))),
        Err(refusal) => reply_to(refusal),
    }
}

/// Inserts a node at the start of a live range.
pub(crate) fn insert_node(
    world: &mut World,
    numbers: u64,
    alloc: Global,
    range: RangeId,
    node: NodeId,
) -> Result<Reply, AllocError>
    requires numbers { numbers ≤ 4294967295 }
    requires shown { IsShown world.old }
    ensures step { IfOk result (IsStep world.old world.new (numbered numbers)
        (InsertNode range node)) }
    ensures left { OnErr result (KeepsWholeWorld world.old world.new) }
{
    if !world.ranges.holds(range) || !world.tree.holds(node) {
        return Ok(Reply::Brief(Brief::Own(OwnError::NoSuchObject)));
    }
    if numbers <= world.tree.made() {
        return Ok(Reply::Brief(Brief::Own(OwnError::Limit)));
    }
    match dom_wrap::insert_node(world, alloc, range, node) {
        Ok(()) => Ok(Reply::Brief(Brief::Nothing)),
        Err(refusal) => reply_to(refusal),
    }
}

/// Moves the contents of a live range into a node, and inserts the node in their place.
pub(crate) fn surround_contents(
    world: &mut World,
    numbers: u64,
    alloc: Global,
    range: RangeId,
    node: NodeId,
) -> Result<Reply, AllocError>
    requires numbers { numbers ≤ 4294967295 }
    requires shown { IsShown world.old }
    ensures step { IfOk result (IsStep world.old world.new (numbered numbers)
        (SurroundContents range node)) }
    ensures left { OnErr result (KeepsWholeWorld world.old world.new) }
{
    if !world.ranges.holds(range) || !world.tree.holds(node) {
        return Ok(Reply::Brief(Brief::Own(OwnError::NoSuchObject)));
    }
    if lacks_numbers(world, numbers) {
        return Ok(Reply::Brief(Brief::Own(OwnError::Limit)));
    }
    match dom_wrap::surround(world, alloc, range, node) {
        Ok(()) => Ok(Reply::Brief(Brief::Nothing)),
        Err(refusal) => reply_to(refusal),
    }
}

// Returns the live range whose contents a command reads or changes.
fn range_of(command: &Contents) -> RangeId {
    match *command {
        Contents::RangeText(range)
        | Contents::DeleteContents(range)
        | Contents::ExtractContents(range)
        | Contents::CloneContents(range)
        | Contents::InsertNode(range, _)
        | Contents::SurroundContents(range, _) => range,
    }
}

// Children behind more siblings than this are looked up before a command. Nearer ones take a few steps each time.
const FAR: usize = 64;

// Caches the index of the child at a point, for the next question.
fn cache_child_index(world: &mut World, point: Point)
    ensures { world.new ≡ world.old }
{
    if FAR < point.offset && world.tree.holds(point.node) {
        let _ = world.tree.found_child(point.node, point.offset);
    }
}

// Caches the indices of the children at both boundary points of a live range.
fn cache_end_indices(world: &mut World, range: RangeId)
    ensures { world.new ≡ world.old }
{
    if world.ranges.holds(range) {
        let (start, end) = world.ranges.ends(range);
        cache_child_index(world, start);
        cache_child_index(world, end);
    }
}

/// Answers the commands on the contents of ranges. If a boundary point is far from both ends of its node's children, its index is cached first, so that no step walks there.
pub(crate) fn change_contents(
    world: &mut World,
    numbers: u64,
    alloc: Global,
    command: Contents,
) -> Result<Reply, AllocError>
    requires numbers { numbers ≤ 4294967295 }
    requires shown { IsShown world.old }
    ensures step { IfOk result (IsStep world.old world.new (numbered numbers)
        (contents_view command)) }
    ensures left { OnErr result (KeepsWholeWorld world.old world.new) }
    ensures unchanged { goes_on (contents_view command) ≡ true →
        OnErr result (world.new ≡ world.old) }
{
    cache_end_indices(world, range_of(&command));
    match command {
        Contents::RangeText(range) => range_text(world, alloc, range),
        Contents::DeleteContents(range) => delete_contents(world, alloc, range),
        Contents::ExtractContents(range) => extract_contents(world, numbers, alloc, range),
        Contents::CloneContents(range) => clone_contents(world, numbers, alloc, range),
        Contents::InsertNode(range, node) => insert_node(world, numbers, alloc, range, node),
        Contents::SurroundContents(range, node) => surround_contents(
            world, numbers, alloc, range, node,
        ),
    }
}
