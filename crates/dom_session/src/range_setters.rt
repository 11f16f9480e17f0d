//! The commands that set the ends of live ranges (DOM Standard, "Interface Range").

ghost use Rattle.std.specs.Prelude.{◌≡◌, IfSome};
ghost use Rattle.dom_model.specs.Soundness.Sound.{IsBoundary};
ghost use Rattle.dom_model.specs.Commands.Command.{SetStart, SetEnd, SetStartBefore, SetStartAfter, SetEndBefore, SetEndAfter, Collapse, SelectNode, SelectNodeContents};
ghost use Rattle.dom_model.specs.Commands.Guards.{Bounds};
ghost use Rattle.dom_model.specs.Commands.AnswerRanges.{sets_start, sets_end};
ghost use Rattle.dom_edit.specs.Whole.{IsShown};
ghost use Rattle.dom_commands.specs.Views.{setting_view};
ghost use Rattle.dom_session.specs.SessionViews.{IsStep, StepsAs};

use crate::node_queries::cache_index;
use dom_commands::{Answer, Brief, Reply, Setting};
use dom_edit::World;
use dom_kinds::DomError;
use dom_model::OwnError;
use dom_point::{Point, point_after, point_before};
use dom_ranges::RangeId;
use dom_tree::NodeId;

/// Sets the start of a live range.
pub(crate) fn set_start(world: &mut World, range: RangeId, node: NodeId, offset: u32) -> Reply
    requires shown { IsShown world.old }
    ensures step { (b : Bounds) → IsStep world.old world.new b (SetStart range node offset) result }
{
    if !world.ranges.holds(range) || !world.tree.holds(node) {
        return Reply::Brief(Brief::Own(OwnError::NoSuchObject));
    }
    let offset = offset as usize;
    match world
        .ranges
        .set_start(&mut world.tree, range, Point { node, offset })
    {
        Ok(()) => Reply::Brief(Brief::Nothing),
        Err(error) => Reply::Brief(Brief::Dom(error)),
    }
}

/// Sets the end of a live range.
pub(crate) fn set_end(world: &mut World, range: RangeId, node: NodeId, offset: u32) -> Reply
    requires shown { IsShown world.old }
    ensures step { (b : Bounds) → IsStep world.old world.new b (SetEnd range node offset) result }
{
    if !world.ranges.holds(range) || !world.tree.holds(node) {
        return Reply::Brief(Brief::Own(OwnError::NoSuchObject));
    }
    let offset = offset as usize;
    match world
        .ranges
        .set_end(&mut world.tree, range, Point { node, offset })
    {
        Ok(()) => Reply::Brief(Brief::Nothing),
        Err(error) => Reply::Brief(Brief::Dom(error)),
    }
}

// Sets the start to a point beside a node; a node without a parent has none.
fn set_start_beside(world: &mut World, range: RangeId, node: NodeId, point: Option<Point>) -> Reply
    requires shown { IsShown world.old }
    requires boundary { IfSome point (IsBoundary world.old.tree.forest) }
    ensures step { StepsAs world.old world.new result (sets_start range node point) }
{
    if !world.ranges.holds(range) || !world.tree.holds(node) {
        return Reply::Brief(Brief::Own(OwnError::NoSuchObject));
    }
    let Some(point) = point else {
        return Reply::Brief(Brief::Dom(DomError::InvalidNodeTypeError));
    };
    match world.ranges.set_start(&mut world.tree, range, point) {
        Ok(()) => Reply::Brief(Brief::Nothing),
        Err(error) => Reply::Brief(Brief::Dom(error)),
    }
}

// Sets the end to a point beside a node; a node without a parent has none.
fn set_end_beside(world: &mut World, range: RangeId, node: NodeId, point: Option<Point>) -> Reply
    requires shown { IsShown world.old }
    requires boundary { IfSome point (IsBoundary world.old.tree.forest) }
    ensures step { StepsAs world.old world.new result (sets_end range node point) }
{
    if !world.ranges.holds(range) || !world.tree.holds(node) {
        return Reply::Brief(Brief::Own(OwnError::NoSuchObject));
    }
    let Some(point) = point else {
        return Reply::Brief(Brief::Dom(DomError::InvalidNodeTypeError));
    };
    match world.ranges.set_end(&mut world.tree, range, point) {
        Ok(()) => Reply::Brief(Brief::Nothing),
        Err(error) => Reply::Brief(Brief::Dom(error)),
    }
}

/// Sets the start of a live range before a node.
pub(crate) fn set_start_before(world: &mut World, range: RangeId, node: NodeId) -> Reply
    requires shown { IsShown world.old }
    ensures step { (b : Bounds) → IsStep world.old world.new b (SetStartBefore range node) result }
{
    if !world.tree.holds(node) {
        return Reply::Brief(Brief::Own(OwnError::NoSuchObject));
    }
    cache_index(world, node);
    let point = point_before(&world.tree, node);
    set_start_beside(world, range, node, point)
}

/// Sets the start of a live range after a node.
pub(crate) fn set_start_after(world: &mut World, range: RangeId, node: NodeId) -> Reply
    requires shown { IsShown world.old }
    ensures step { (b : Bounds) → IsStep world.old world.new b (SetStartAfter range node) result }
{
    if !world.tree.holds(node) {
        return Reply::Brief(Brief::Own(OwnError::NoSuchObject));
    }
    cache_index(world, node);
    let point = point_after(&world.tree, node);
    set_start_beside(world, range, node, point)
}

/// Sets the end of a live range before a node.
pub(crate) fn set_end_before(world: &mut World, range: RangeId, node: NodeId) -> Reply
    requires shown { IsShown world.old }
    ensures step { (b : Bounds) → IsStep world.old world.new b (SetEndBefore range node) result }
{
    if !world.tree.holds(node) {
        return Reply::Brief(Brief::Own(OwnError::NoSuchObject));
    }
    cache_index(world, node);
    let point = point_before(&world.tree, node);
    set_end_beside(world, range, node, point)
}

/// Sets the end of a live range after a node.
pub(crate) fn set_end_after(world: &mut World, range: RangeId, node: NodeId) -> Reply
    requires shown { IsShown world.old }
    ensures step { (b : Bounds) → IsStep world.old world.new b (SetEndAfter range node) result }
{
    if !world.tree.holds(node) {
        return Reply::Brief(Brief::Own(OwnError::NoSuchObject));
    }
    cache_index(world, node);
    let point = point_after(&world.tree, node);
    set_end_beside(world, range, node, point)
}

/// Moves one end of a live range to the other: the end to the start, or the start to the end.
pub(crate) fn collapse(world: &mut World, range: RangeId, to_start: bool) -> Reply
    requires shown { IsShown world.old }
    ensures step { (b : Bounds) → IsStep world.old world.new b (Collapse range to_start) result }
{
    if !world.ranges.holds(range) {
        return Reply::Brief(Brief::Own(OwnError::NoSuchObject));
    }
    world.ranges.collapse(range, to_start);
    Reply::Brief(Brief::Nothing)
}

/// Sets the ends of a live range around a node.
pub(crate) fn select_node(world: &mut World, range: RangeId, node: NodeId) -> Reply
    requires shown { IsShown world.old }
    ensures step { (b : Bounds) → IsStep world.old world.new b (SelectNode range node) result }
{
    if !world.ranges.holds(range) || !world.tree.holds(node) {
        return Reply::Brief(Brief::Own(OwnError::NoSuchObject));
    }
    cache_index(world, node);
    match world.ranges.select(&world.tree, range, node) {
        Ok(()) => Reply::Brief(Brief::Nothing),
        Err(error) => Reply::Brief(Brief::Dom(error)),
    }
}

/// Sets the ends of a live range around what a node has.
pub(crate) fn select_node_contents(world: &mut World, range: RangeId, node: NodeId) -> Reply
    requires shown { IsShown world.old }
    ensures step { (b : Bounds) → IsStep world.old world.new b (SelectNodeContents range node)
        result }
{
    if !world.ranges.holds(range) || !world.tree.holds(node) {
        return Reply::Brief(Brief::Own(OwnError::NoSuchObject));
    }
    match world.ranges.select_contents(&world.tree, range, node) {
        Ok(()) => Reply::Brief(Brief::Nothing),
        Err(error) => Reply::Brief(Brief::Dom(error)),
    }
}

/// Answers the commands that set the ends of live ranges.
pub(crate) fn set_ranges(world: &mut World, command: Setting) -> Reply
    requires shown { IsShown world.old }
    ensures step { (b : Bounds) → IsStep world.old world.new b (setting_view command) result }
{
    match command {
        Setting::SetStart(range, node, offset) => set_start(world, range, node, offset),
        Setting::SetEnd(range, node, offset) => set_end(world, range, node, offset),
        Setting::SetStartBefore(range, node) => set_start_before(world, range, node),
        Setting::SetStartAfter(range, node) => set_start_after(world, range, node),
        Setting::SetEndBefore(range, node) => set_end_before(world, range, node),
        Setting::SetEndAfter(range, node) => set_end_after(world, range, node),
        Setting::Collapse(range, to_start) => collapse(world, range, to_start),
        Setting::SelectNode(range, node) => select_node(world, range, node),
        Setting::SelectNodeContents(range, node) => select_node_contents(world, range, node),
    }
}
