//! Deleting contents (DOM Standard, "Interface Range", deleteContents).

ghost use Rattle.std.specs.Prelude.{◌≡◌, ℕ, ◌<◌, ◌≤◌, [], length, true, false, Some, OnOk, IsSome};
ghost use Rattle.dom_model.specs.PlainLists.Lists.{hits};
ghost use Rattle.dom_model.specs.Forests.Forest.{HasNode};
ghost use Rattle.dom_model.specs.Forests.Ways.{IsWay};
ghost use Rattle.dom_model.specs.Soundness.Sound.{IsRange};
ghost use Rattle.dom_model.specs.Forests.Kinds.{is_character_data};
ghost use Rattle.dom_model.specs.Forests.Nodes.{kind_passes};
ghost use Rattle.dom_model.specs.DataAndCopies.Data.{data_of, replace_data, remove_each};
ghost use Rattle.dom_model.specs.RangesAndContents.Ranges.{collapsed_at, with_range};
ghost use Rattle.dom_model.specs.RangesAndContents.Contents.{is_in_one_data, cut_from, cut_up_to, deleted_between, delete_contents};
ghost use Rattle.dom_ranges.specs.Tables.{range_in};
ghost use Rattle.dom_model.specs.TokenText.Edits.{delete_contents_edits};
ghost use Rattle.dom_edit.specs.Whole.{IsWhole, Follows, unwatched};
ghost use Rattle.dom_edit.specs.KeptNodes.{KeepsLabels};
ghost use Rattle.dom_edit.specs.Markers.{StandByEdits};
ghost use Rattle.dom_content.specs.DrawnParts.{place_behind};
ghost use Rattle.dom_content.specs.LeftTokens.{IsLeftOf};

use crate::contained::contained_tops;
use crate::range_parts::{head, parts_of};
use crate::same_data::is_in_one_data;
use dom_data::replace_data_checked;
use dom_edit::{Content, World, data_in};
use dom_point::{Point, point_after};
use dom_ranges::RangeId;
use dom_tree::{NodeId, Tree};
use std::alloc::{AllocError, Global};

// Removes units of a node's data, from an offset within the data on.
fn cut_units(
    world: &mut World,
    alloc: Global,
    node: NodeId,
    offset: usize,
    count: usize,
) -> Result<(), AllocError>
    requires whole { IsWhole world.old }
    requires kind { kind_passes is_character_data world.old.tree.forest node ≡ true }
    requires within { offset ≤ length (data_of (unwatched world.old) node) }
    ensures cut { OnOk result (Follows world.old world.new (replace_data node offset count [])) }
    ensures kept { KeepsLabels world.old world.new }
    ensures whole { IsWhole world.new }
{
    replace_data_checked(world, alloc, node, offset, count, &[])
}

// Returns the point of a range whose contents were removed: after the common ancestor's child on the path to the start, or the start itself if that
// is in the ancestor.
pub(crate) fn new_place(tree: &Tree<Content>, start: Point, path: &[NodeId]) -> Point
    requires way { (ancestor : ℕ) × IsWay tree.now.forest ancestor path.now start.node }
    ensures { (ancestor : ℕ) → IsWay tree.now.forest ancestor path.now start.node →
        result ≡ place_behind tree.now.forest ancestor start path.now }
{
    match head(path) {
        Some(child) => point_after(tree, child).unwrap(),
        None => start,
    }
}

// Sets both ends of a range to one point.
pub(crate) fn stand_at(world: &mut World, range: RangeId, place: Point)
    requires whole { IsWhole world.old }
    requires live { IsSome (range_in world.old.ranges range) }
    requires within { IsRange world.old.tree.forest (collapsed_at place) }
    ensures stands { Follows world.old world.new (with_range range (collapsed_at place)) }
    ensures kept { KeepsLabels world.old world.new }
    ensures whole { IsWhole world.new }
{
    world.ranges.collapse_at(range, place);
}

// Removes the units of a node's data from a point on, if the node has data.
fn cut_from(world: &mut World, alloc: Global, start: Point) -> Result<(), AllocError>
    requires whole { IsWhole world.old }
    requires held { HasNode world.old.tree.forest start.node }
    requires within { kind_passes is_character_data world.old.tree.forest start.node ≡ true →
        start.offset ≤ length (data_of (unwatched world.old) start.node) }
    ensures cut { OnOk result (Follows world.old world.new (cut_from start.node start.offset)) }
    ensures kept { KeepsLabels world.old world.new }
    ensures whole { IsWhole world.new }
{
    let Point { node, offset } = start;
    if !world.tree.has_data(node) {
        return Ok(());
    }
    let length = data_in(&world.tree, node).len();
    cut_units(world, alloc, node, offset, length - offset)
}

// Removes the units of a node's data up to a point, if the node has data.
fn cut_up_to(world: &mut World, alloc: Global, end: Point) -> Result<(), AllocError>
    requires whole { IsWhole world.old }
    requires held { HasNode world.old.tree.forest end.node }
    ensures cut { OnOk result (Follows world.old world.new (cut_up_to end.node end.offset)) }
    ensures kept { KeepsLabels world.old world.new }
    ensures whole { IsWhole world.new }
{
    let Point { node, offset } = end;
    if !world.tree.has_data(node) {
        return Ok(());
    }
    cut_units(world, alloc, node, 0, offset)
}

// Removes each of these nodes from its parent in turn.
fn remove_each(world: &mut World, nodes: &[NodeId]) -> Result<(), AllocError>
    requires whole { IsWhole world.old }
    requires held { (n : ℕ) → 0 < hits n nodes.now → HasNode world.old.tree.forest n }
    ensures removed { OnOk result (Follows world.old world.new (remove_each nodes.now)) }
    ensures kept { KeepsLabels world.old world.new }
    ensures whole { IsWhole world.new }
{
    for node in nodes {
        world.remove(*node)?;
    }
    Ok(())
}

// Deletes the contents of a range that is not within the data of one node.
fn delete_between(
    world: &mut World,
    alloc: Global,
    range: RangeId,
    start: Point,
    end: Point,
) -> Result<(), AllocError>
    requires whole { IsWhole world.old }
    requires ends { range_in world.old.ranges range ≡ Some (record { start = start; end = end }) }
    requires apart { is_in_one_data (unwatched world.old) (record { start = start; end = end })
        ≡ false }
    ensures deleted { OnOk result (Follows world.old world.new
        (deleted_between range (record { start = start; end = end }))) }
    ensures kept { KeepsLabels world.old world.new }
    ensures whole { IsWhole world.new }
{
    let parts = parts_of(&world.tree, alloc, start, end)?;
    let place = new_place(&world.tree, start, &parts.first);
    let tops = contained_tops(world, alloc, start, end, &parts)?;
    cut_from(world, alloc, start)?;
    remove_each(world, &tops)?;
    cut_up_to(world, alloc, end)?;
    stand_at(world, range, place);
    Ok(())
}

// Deletes the contents of a live range.
fn delete_range(world: &mut World, alloc: Global, range: RangeId) -> Result<(), AllocError>
    requires whole { IsWhole world.old }
    requires held { IsSome (range_in world.old.ranges range) }
    ensures deleted { OnOk result (Follows world.old world.new (delete_contents range)) }
    ensures kept { KeepsLabels world.old world.new }
    ensures whole { IsWhole world.new }
{
    let (start, end) = world.ranges.ends(range);
    if start == end {
        return Ok(());
    }
    if is_in_one_data(&world.tree, start, end) {
        let count = end.offset - start.offset;
        return cut_units(world, alloc, start.node, start.offset, count);
    }
    delete_between(world, alloc, range, start, end)
}

/// Deletes the contents of a live range, and collapses it.
pub fn delete_contents(world: &mut World, alloc: Global, range: RangeId) -> Result<(), AllocError>
    requires whole { IsWhole world.old }
    requires held { IsSome (range_in world.old.ranges range) }
    ensures deleted { OnOk result (Follows world.old world.new (delete_contents range)) }
    ensures markers { OnOk result (StandByEdits world.old world.new (delete_contents_edits range)) }
    ensures left { OnOk result (IsLeftOf world.old world.new range) }
    ensures kept { KeepsLabels world.old world.new }
    ensures whole { IsWhole world.new }
{
    delete_range(world, alloc, range)
}
