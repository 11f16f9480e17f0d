//! Questions about live ranges: the position of points and nodes relative to them (DOM Standard, "Interface Range").

ghost use Rattle.std.specs.Prelude.{◌≡◌, true};
ghost use Rattle.dom_model.specs.Forests.Forest.{HasNode, root_of};
ghost use Rattle.dom_model.specs.Forests.Nodes as nodes;
ghost use Rattle.dom_model.specs.Worlds.World.{Range};
ghost use Rattle.dom_model.specs.RangesAndContents.Ranges.{place_against, is_point_in, intersects};
ghost use Rattle.dom_model.specs.Commands.Command.{CompareBoundaryPoints, ComparePoint, IsPointInRange, IntersectsNode, CommonAncestor};
ghost use Rattle.dom_model.specs.Commands.Guards.{Bounds};
ghost use Rattle.dom_ranges.specs.Tables.{StandsIn, result_of_check};
ghost use Rattle.dom_edit.specs.Whole.{IsShown};
ghost use Rattle.dom_commands.specs.Views.{comparing_view};
ghost use Rattle.dom_session.specs.SessionViews.{IsStep};

use dom_commands::{Answer, Brief, Comparing, Reply};
use dom_edit::{Content, World};
use dom_kinds::DomError;
use dom_model::OwnError;
use dom_point::{Point, checked_point, common, found_around, found_before, found_order, same_root};
use dom_ranges::RangeId;
use dom_tree::{NodeId, Tree};
use std::cmp::Ordering;

// Returns whether a point of the range's root is before the range, after it, or in it.
fn place(tree: &mut Tree<Content>, point: Point, start: Point, end: Point) -> Ordering
    requires point_held { HasNode tree.old.forest point.node }
    requires stands { StandsIn tree.old.forest (record { start = start; end = end }) }
    requires one_root { root_of tree.old.forest point.node ≡ root_of tree.old.forest start.node }
    ensures place { result ≡ place_against tree.old.forest point
        (record { start = start; end = end }) }
    ensures unchanged { tree.new ≡ tree.old }
{
    if found_before(tree, point, start) {
        return Ordering::Less;
    }
    if found_before(tree, end, point) {
        return Ordering::Greater;
    }
    Ordering::Equal
}

// Returns whether a point of the range's root is neither before the range nor after it.
fn is_inside(tree: &mut Tree<Content>, point: Point, start: Point, end: Point) -> bool
    requires point_held { HasNode tree.old.forest point.node }
    requires stands { StandsIn tree.old.forest (record { start = start; end = end }) }
    requires one_root { nodes.same_root tree.old.forest point.node start.node ≡ true }
    ensures inside { result ≡ is_point_in tree.old.forest point
        (record { start = start; end = end }) }
    ensures unchanged { tree.new ≡ tree.old }
{
    !found_before(tree, point, start) && !found_before(tree, end, point)
}

/// Compares an end of a live range with one of a source: with `how` 0 both starts, 1 the end with the source's start, 2 both ends, 3 the
/// start with the source's end.
pub(crate) fn compare_boundary_points(
    world: &mut World,
    range: RangeId,
    how: u32,
    source: RangeId,
) -> Reply
    requires shown { IsShown world.old }
    ensures step { (b : Bounds) → IsStep world.old world.new b
        (CompareBoundaryPoints range how source) result }
    ensures unchanged { world.new ≡ world.old }
{
    if !world.ranges.holds(range) || !world.ranges.holds(source) {
        return Reply::Brief(Brief::Own(OwnError::NoSuchObject));
    }
    if how > 3 {
        return Reply::Brief(Brief::Dom(DomError::NotSupportedError));
    }
    let (start, end) = world.ranges.ends(range);
    let (source_start, source_end) = world.ranges.ends(source);
    if !same_root(&world.tree, start.node, source_start.node) {
        return Reply::Brief(Brief::Dom(DomError::WrongDocumentError));
    }
    let this = if how == 0 || how == 3 { start } else { end };
    let other = if how == 0 || how == 1 {
        source_start
    } else {
        source_end
    };
    Reply::Done(Answer::Order(found_order(&mut world.tree, this, other)))
}

/// Returns whether a point is before a live range, in it, or after it.
pub(crate) fn compare_point(world: &mut World, range: RangeId, node: NodeId, offset: u32) -> Reply
    requires shown { IsShown world.old }
    ensures step { (b : Bounds) → IsStep world.old world.new b (ComparePoint range node offset)
        result }
    ensures unchanged { world.new ≡ world.old }
{
    if !world.ranges.holds(range) || !world.tree.holds(node) {
        return Reply::Brief(Brief::Own(OwnError::NoSuchObject));
    }
    let offset = offset as usize;
    let (start, end) = world.ranges.ends(range);
    if !same_root(&world.tree, node, start.node) {
        return Reply::Brief(Brief::Dom(DomError::WrongDocumentError));
    }
    match checked_point(&world.tree, node, offset) {
        Ok(()) => Reply::Done(Answer::Order(place(
            &mut world.tree,
            Point { node, offset },
            start,
            end,
        ))),
        Err(error) => Reply::Brief(Brief::Dom(error)),
    }
}

/// Returns whether a point is in a live range; a point of another root is not.
pub(crate) fn is_point_in_range(
    world: &mut World,
    range: RangeId,
    node: NodeId,
    offset: u32,
) -> Reply
    requires shown { IsShown world.old }
    ensures step { (b : Bounds) → IsStep world.old world.new b (IsPointInRange range node offset)
        result }
    ensures unchanged { world.new ≡ world.old }
{
    if !world.ranges.holds(range) || !world.tree.holds(node) {
        return Reply::Brief(Brief::Own(OwnError::NoSuchObject));
    }
    let offset = offset as usize;
    let (start, end) = world.ranges.ends(range);
    if !same_root(&world.tree, node, start.node) {
        return Reply::Done(Answer::Flag(false));
    }
    match checked_point(&world.tree, node, offset) {
        Ok(()) => Reply::Done(Answer::Flag(is_inside(
            &mut world.tree,
            Point { node, offset },
            start,
            end,
        ))),
        Err(error) => Reply::Brief(Brief::Dom(error)),
    }
}

// Returns whether a node of the range's root intersects the range. A root does.
fn meets(tree: &mut Tree<Content>, node: NodeId, start: Point, end: Point) -> bool
    requires node_held { HasNode tree.old.forest node }
    requires stands { StandsIn tree.old.forest (record { start = start; end = end }) }
    ensures meets { result ≡ intersects tree.old.forest node (record { start = start; end = end }) }
    ensures unchanged { tree.new ≡ tree.old }
{
    tree.state_law();
    if !same_root(tree, node, start.node) {
        return false;
    }
    let Some((before, after)) = found_around(tree, node) else {
        return true;
    };
    found_before(tree, before, end) && found_before(tree, start, after)
}

/// Returns whether a live range intersects a node.
pub(crate) fn intersects_node(world: &mut World, range: RangeId, node: NodeId) -> Reply
    requires shown { IsShown world.old }
    ensures step { (b : Bounds) → IsStep world.old world.new b (IntersectsNode range node) result }
    ensures unchanged { world.new ≡ world.old }
{
    if !world.ranges.holds(range) || !world.tree.holds(node) {
        return Reply::Brief(Brief::Own(OwnError::NoSuchObject));
    }
    let (start, end) = world.ranges.ends(range);
    Reply::Done(Answer::Flag(meets(&mut world.tree, node, start, end)))
}

/// Returns the deepest inclusive ancestor of both boundary points of a live range.
pub(crate) fn common_ancestor(world: &World, range: RangeId) -> Reply
    requires shown { IsShown world.now }
    ensures step { (b : Bounds) → IsStep world.now world.now b (CommonAncestor range) result }
{
    if !world.ranges.holds(range) {
        return Reply::Brief(Brief::Own(OwnError::NoSuchObject));
    }
    let (start, end) = world.ranges.ends(range);
    let node = common(&world.tree, start.node, end.node);
    Reply::Brief(Brief::Number(node.number()))
}

/// Answers the questions about live ranges.
pub(crate) fn compare(world: &mut World, command: Comparing) -> Reply
    requires shown { IsShown world.old }
    ensures step { (b : Bounds) → IsStep world.old world.new b (comparing_view command) result }
{
    match command {
        Comparing::CompareBoundaryPoints(range, how, source) => compare_boundary_points(
            world, range, how, source,
        ),
        Comparing::ComparePoint(range, node, offset) => compare_point(world, range, node, offset),
        Comparing::IsPointInRange(range, node, offset) => is_point_in_range(
            world, range, node, offset,
        ),
        Comparing::IntersectsNode(range, node) => intersects_node(world, range, node),
        Comparing::CommonAncestor(range) => common_ancestor(world, range),
    }
}
