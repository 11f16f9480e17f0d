//! Moving or copying contents into a fragment (DOM Standard, "Interface Range", extractContents, cloneContents).

ghost use Rattle.std.specs.Prelude.{◌≡◌, ◌-◌, ◌==◌, ◌≤◌, ◌||◌, ◌++◌, [], ◌∷◌, length, true, false, None, IfOk, OnOk, IsSome};
ghost use Rattle.std.specs.Result.{IfErr};
ghost use Rattle.dom_model.specs.declared.Kind.TheVariants.{DocumentType};
ghost use Rattle.dom_model.specs.Forests.Forest.{HasNode};
ghost use Rattle.dom_model.specs.Forests.Kinds.{is_character_data};
ghost use Rattle.dom_model.specs.Soundness.Sound.{IsRange};
ghost use Rattle.dom_model.specs.MutationAlgorithms.Checks.{has_kind};
ghost use Rattle.dom_model.specs.Forests.Nodes.{kind_passes};
ghost use Rattle.dom_model.specs.RangesAndContents.Ranges.{is_collapsed};
ghost use Rattle.dom_model.specs.RangesAndContents.Contents.{units_into, contents_drawn, check_draw, check_extract, extracted, extract, clone_contents};
ghost use Rattle.dom_ranges.specs.Tables.{range_in};
ghost use Rattle.dom_edit.specs.Insertion.{AreThere};
ghost use Rattle.dom_model.specs.TokenText.Edits.{clone_contents_edits};
ghost use Rattle.dom_edit.specs.Whole.{IsWhole, Follows, unwatched};
ghost use Rattle.dom_edit.specs.KeptNodes.{KeepsLabels};
ghost use Rattle.dom_edit.specs.OlderNodes.{LeavesAll, LeavesOlder};
ghost use Rattle.dom_edit.specs.Markers.{StandByEdits};
ghost use Rattle.dom_edit.specs.Refusals.{IsRefused};
ghost use Rattle.dom_content.specs.LeftTokens.{HoldsBetween, CopiesBetween, Extracted};
ghost use Rattle.dom_content.specs.Paths.{HasNumbers, Stays};
ghost use Rattle.dom_content.specs.DrawConditions.{MayDraw, IsPathTo};
ghost use Rattle.dom_model.specs.DataAndCopies.Data.{data_of};
ghost use Rattle.dom_content.specs.DrawnParts.{ArePartsOf, in_one_data, drawn_by, filled_by};

use crate::content_pieces::{children_into, new_fragment, units_into};
use crate::deletion::{new_place, stand_at};
use crate::end_paths::{head_into, tail_into};
use crate::range_parts::{RangeParts, parts_of};
use crate::same_data::is_in_one_data;
use dom_edit::{Content, Refusal, World, document_in};
use dom_kinds::{DomError, Kind};
use dom_point::Point;
use dom_ranges::RangeId;
use dom_tree::{NodeId, Tree};
use std::alloc::{AllocError, Global};

// The contents of a range: whether they are moved or copied, the range's ends, and its parts.
#[derive(Clone, Copy)]
struct Drawn<'a> {
    moves: bool,
    start: Point,
    end: Point,
    parts: &'a RangeParts,
}

// Returns whether one of these nodes is a doctype.
fn has_doctype(tree: &Tree<Content>, nodes: &[NodeId]) -> bool
    requires held { AreThere tree.now.forest nodes.now }
    ensures { result ≡ has_kind DocumentType tree.now.forest nodes.now }
{
    for node in nodes {
        if tree.is_of_kind(*node, Kind::DocumentType) {
            return true;
        }
    }
    false
}

// Returns the parts of a range, unless it contains a doctype.
fn drawable_parts(
    world: &World,
    alloc: Global,
    start: Point,
    end: Point,
) -> Result<RangeParts, Refusal>
    requires whole { IsWhole world.now }
    requires range { IsRange world.now.tree.forest (record { start = start; end = end }) }
    ensures allowed { OnOk result (check_draw (unwatched world.now)
        (record { start = start; end = end }) ≡ None) }
    ensures parts { IfOk result (λ parts. ArePartsOf world.now.tree.forest start end parts) }
    ensures refused { IfErr result (λ e. IsRefused e
        (check_draw (unwatched world.now) (record { start = start; end = end })) world.now
        world.now) }
{
    let parts = parts_of(&world.tree, alloc, start, end)?;
    if has_doctype(&world.tree, &parts.contained) {
        return Err(Refusal::Dom(DomError::HierarchyRequestError));
    }
    Ok(parts)
}

// Returns whether the ends of a range follow the cut, once its contents are removed.
fn follows_cut(tree: &Tree<Content>, start: Point, end: Point) -> bool
    requires held { HasNode tree.now.forest start.node }
    ensures { result ≡ (is_collapsed (record { start = start; end = end })
        || in_one_data tree.now.forest (record { start = start; end = end })) }
{
    start == end || is_in_one_data(tree, start, end)
}

// Puts the units between two points of one node into a fragment.
fn draw_units(
    world: &mut World,
    alloc: Global,
    into: NodeId,
    drawn: &Drawn<'_>,
) -> Result<(), AllocError>
    requires whole { IsWhole world.old }
    requires may { MayDraw world.old into [] }
    requires kind { kind_passes is_character_data world.old.tree.forest drawn.now.start.node
        ≡ true }
    requires within { drawn.now.start.offset
        ≤ length (data_of (unwatched world.old) drawn.now.start.node) }
    requires ahead { drawn.now.start.offset ≤ drawn.now.end.offset }
    requires room { HasNumbers world.old (units_into drawn.now.moves into drawn.now.start.node
        drawn.now.start.offset (drawn.now.end.offset - drawn.now.start.offset)) }
    ensures drawn { OnOk result (Follows world.old world.new
        (units_into drawn.now.moves into drawn.now.start.node drawn.now.start.offset
        (drawn.now.end.offset - drawn.now.start.offset))) }
    ensures stays { OnOk result (Stays world.old world.new) }
    ensures left { drawn.now.moves ≡ false → LeavesOlder (into ∷ []) world.old world.new }
    ensures kept { KeepsLabels world.old world.new }
    ensures whole { IsWhole world.new }
{
    let Drawn {
        moves,
        start,
        end,
        ..
    } = *drawn;
    let count = end.offset - start.offset;
    units_into(world, alloc, moves, into, start.node, start.offset, count)
}

// Puts the parts of a range into a fragment, in order.
fn draw_parts(
    world: &mut World,
    alloc: Global,
    into: NodeId,
    drawn: &Drawn<'_>,
) -> Result<(), AllocError>
    requires whole { IsWhole world.old }
    requires may { MayDraw world.old into (drawn.now.parts.now.first.items
        ++ (drawn.now.parts.now.contained.items ++ drawn.now.parts.now.last.items)) }
    requires first_way { IsPathTo world.old.tree.forest drawn.now.start.offset
        drawn.now.parts.now.first.items }
    requires last_way { IsPathTo world.old.tree.forest 0 drawn.now.parts.now.last.items }
    requires room { HasNumbers world.old (drawn_by drawn.now.moves into drawn.now.start drawn.now.end
        drawn.now.parts.now) }
    ensures drawn { OnOk result (Follows world.old world.new
        (drawn_by drawn.now.moves into drawn.now.start drawn.now.end drawn.now.parts.now)) }
    ensures stays { OnOk result (Stays world.old world.new) }
    ensures left { drawn.now.moves ≡ false → LeavesOlder (into ∷ []) world.old world.new }
    ensures kept { KeepsLabels world.old world.new }
    ensures whole { IsWhole world.new }
{
    let Drawn {
        moves,
        start,
        end,
        parts,
    } = *drawn;
    tail_into(world, alloc, moves, into, start.offset, &parts.first)?;
    children_into(world, alloc, moves, into, &parts.contained)?;
    head_into(world, alloc, moves, into, end.offset, &parts.last)
}

// Puts the contents of a range into a fragment: nothing, units of one node, or parts.
fn fill(world: &mut World, alloc: Global, into: NodeId, drawn: &Drawn<'_>) -> Result<(), AllocError>
    requires whole { IsWhole world.old }
    requires start_held { HasNode world.old.tree.forest drawn.now.start.node }
    requires within { in_one_data world.old.tree.forest
        (record { start = drawn.now.start; end = drawn.now.end }) ≡ true →
        drawn.now.start.offset ≤ length (data_of (unwatched world.old) drawn.now.start.node) }
    requires ahead { (drawn.now.start.node == drawn.now.end.node) ≡ true →
        drawn.now.start.offset ≤ drawn.now.end.offset }
    requires may { MayDraw world.old into (drawn.now.parts.now.first.items
        ++ (drawn.now.parts.now.contained.items ++ drawn.now.parts.now.last.items)) }
    requires first_way { IsPathTo world.old.tree.forest drawn.now.start.offset
        drawn.now.parts.now.first.items }
    requires last_way { IsPathTo world.old.tree.forest 0 drawn.now.parts.now.last.items }
    requires room { HasNumbers world.old (filled_by drawn.now.moves
        (in_one_data world.old.tree.forest
        (record { start = drawn.now.start; end = drawn.now.end })) into drawn.now.start
        drawn.now.end drawn.now.parts.now) }
    ensures drawn { OnOk result (Follows world.old world.new (filled_by drawn.now.moves
        (in_one_data world.old.tree.forest
        (record { start = drawn.now.start; end = drawn.now.end })) into drawn.now.start
        drawn.now.end drawn.now.parts.now)) }
    ensures stays { OnOk result (Stays world.old world.new) }
    ensures left { drawn.now.moves ≡ false → LeavesOlder (into ∷ []) world.old world.new }
    ensures kept { KeepsLabels world.old world.new }
    ensures whole { IsWhole world.new }
{
    if drawn.start == drawn.end {
        return Ok(());
    }
    if is_in_one_data(&world.tree, drawn.start, drawn.end) {
        return draw_units(world, alloc, into, drawn);
    }
    draw_parts(world, alloc, into, drawn)
}

// Makes a fragment with the contents of a range, by its parts.
fn draw(world: &mut World, alloc: Global, drawn: &Drawn<'_>) -> Result<NodeId, AllocError>
    requires whole { IsWhole world.old }
    requires range { IsRange world.old.tree.forest
        (record { start = drawn.now.start; end = drawn.now.end }) }
    requires allowed { check_draw (unwatched world.old)
        (record { start = drawn.now.start; end = drawn.now.end }) ≡ None }
    requires parts { ArePartsOf world.old.tree.forest drawn.now.start drawn.now.end
        drawn.now.parts.now }
    requires room { HasNumbers world.old (contents_drawn drawn.now.moves
        (record { start = drawn.now.start; end = drawn.now.end })) }
    ensures number { IfOk result (λ id. id ≡ world.old.tree.made) }
    ensures drawn { OnOk result (Follows world.old world.new (contents_drawn drawn.now.moves
        (record { start = drawn.now.start; end = drawn.now.end }))) }
    ensures stays { OnOk result (Stays world.old world.new) }
    ensures left { drawn.now.moves ≡ false → LeavesAll world.old world.new }
    ensures kept { KeepsLabels world.old world.new }
    ensures whole { IsWhole world.new }
{
    let start = drawn.start;
    let document = document_in(&world.tree, start.node);
    let fragment = new_fragment(world, document)?;
    fill(world, alloc, fragment, drawn)?;
    Ok(fragment)
}

// Moves the contents of a live range into a new fragment, by its ends and parts, and collapses it.
fn extract_parts(
    world: &mut World,
    alloc: Global,
    range: RangeId,
    ends: (Point, Point),
    parts: &RangeParts,
) -> Result<NodeId, AllocError>
    requires whole { IsWhole world.old }
    requires live { IsSome (range_in world.old.ranges range) }
    requires range { IsRange world.old.tree.forest (record { start = ends.0; end = ends.1 }) }
    requires allowed { check_draw (unwatched world.old) (record { start = ends.0; end = ends.1 })
        ≡ None }
    requires parts { ArePartsOf world.old.tree.forest ends.0 ends.1 parts.now }
    requires room { HasNumbers world.old (contents_drawn true
        (record { start = ends.0; end = ends.1 })) }
    ensures number { IfOk result (λ id. id ≡ world.old.tree.made) }
    ensures extracted { OnOk result (Follows world.old world.new
        (extracted range (record { start = ends.0; end = ends.1 }))) }
    ensures kept { KeepsLabels world.old world.new }
    ensures whole { IsWhole world.new }
{
    let (start, end) = ends;
    let place = new_place(&world.tree, start, &parts.first);
    let stays = follows_cut(&world.tree, start, end);
    let moved = Drawn {
        moves: true,
        start,
        end,
        parts,
    };
    let fragment = draw(world, alloc, &moved)?;
    if !stays {
        stand_at(world, range, place);
    }
    Ok(fragment)
}

/// Moves the contents of a live range into a new fragment, returns that, and collapses the range.
///
/// Partially contained nodes are copied. Refuses a contained doctype with `HierarchyRequestError`, before a node is made.
pub fn extract(world: &mut World, alloc: Global, range: RangeId) -> Result<NodeId, Refusal>
    requires whole { IsWhole world.old }
    requires held { IsSome (range_in world.old.ranges range) }
    requires room { check_extract range (unwatched world.old) ≡ None →
        (extract range (unwatched world.old)).made ≤ 4294967295 }
    ensures extracted { IfOk result (Extracted world.old world.new range) }
    ensures allowed { OnOk result (check_extract range (unwatched world.old) ≡ None) }
    ensures refused { IfErr result (λ e. IsRefused e (check_extract range (unwatched world.old))
        world.old world.new) }
    ensures kept { KeepsLabels world.old world.new }
    ensures whole { IsWhole world.new }
{
    let (start, end) = world.ranges.ends(range);
    let parts = drawable_parts(world, alloc, start, end)?;
    let fragment = extract_parts(world, alloc, range, (start, end), &parts)?;
    Ok(fragment)
}

/// Moves the contents of a live range into a new fragment as [`extract`] does, if no doctype is contained.
pub fn extract_checked(
    world: &mut World,
    alloc: Global,
    range: RangeId,
) -> Result<NodeId, AllocError>
    requires whole { IsWhole world.old }
    requires held { IsSome (range_in world.old.ranges range) }
    requires allowed { check_extract range (unwatched world.old) ≡ None }
    requires room { (extract range (unwatched world.old)).made ≤ 4294967295 }
    ensures extracted { IfOk result (Extracted world.old world.new range) }
    ensures kept { KeepsLabels world.old world.new }
    ensures whole { IsWhole world.new }
{
    let (start, end) = world.ranges.ends(range);
    let parts = parts_of(&world.tree, alloc, start, end)?;
    extract_parts(world, alloc, range, (start, end), &parts)
}

/// Copies the contents of a live range into a new fragment, and returns that.
///
/// Refuses a contained doctype with `HierarchyRequestError`, before a node is made. Whatever the result, even out of memory half-way, every earlier
/// node, range, iterator, walker, registration and record stays as it was.
pub fn clone_contents(world: &mut World, alloc: Global, range: RangeId) -> Result<NodeId, Refusal>
    requires whole { IsWhole world.old }
    requires held { IsSome (range_in world.old.ranges range) }
    requires room { check_extract range (unwatched world.old) ≡ None →
        (clone_contents range (unwatched world.old)).made ≤ 4294967295 }
    ensures number { IfOk result (λ id. id ≡ world.old.tree.made) }
    ensures allowed { OnOk result (check_extract range (unwatched world.old) ≡ None) }
    ensures cloned { OnOk result (Follows world.old world.new (clone_contents range)) }
    ensures markers { OnOk result (StandByEdits world.old world.new (clone_contents_edits range)) }
    ensures held { IfOk result (λ id. HoldsBetween world.old world.new range id) }
    ensures copied { IfOk result (λ id. CopiesBetween world.old world.new range id) }
    ensures refused { IfErr result (λ e. IsRefused e (check_extract range (unwatched world.old))
        world.old world.new) }
    ensures left { LeavesAll world.old world.new }
    ensures kept { KeepsLabels world.old world.new }
    ensures whole { IsWhole world.new }
{
    let (start, end) = world.ranges.ends(range);
    let parts = drawable_parts(world, alloc, start, end)?;
    let copied = Drawn {
        moves: false,
        start,
        end,
        parts: &parts,
    };
    let fragment = draw(world, alloc, &copied)?;
    Ok(fragment)
}
