//! Inserting a node at the start of a live range (DOM Standard, "Interface Range", insertNode).

ghost use Rattle.std.specs.Prelude.{◌≡◌, ◌<◌, ◌≤◌, ℕ, length, true, None, Some, OnOk, IfOk, IsSome, MatchResult};
ghost use Rattle.std.specs.Option.{ForSome};
ghost use Rattle.std.specs.Result.{IfErr};
ghost use Rattle.dom_model.specs.Forests.Forest.{HasNode};
ghost use Rattle.dom_model.specs.Worlds.World.{World as PlainWorld};
ghost use Rattle.dom_model.specs.MutationAlgorithms.Checks as checks;
ghost use Rattle.dom_model.specs.MutationAlgorithms.Editing.{nodes_of};
ghost use Rattle.dom_model.specs.DataAndCopies.Data.{data_of};
ghost use Rattle.dom_model.specs.RangesAndContents.Wrapping.{insert_node, is_text, inserted_at, placed_at, refusal_in, check_start, reference_at, parent_at, reference_after, split_at, offset_past, end_if_collapsed};
ghost use Rattle.dom_model.specs.TokenText.Edits.{insert_node_edits};
ghost use Rattle.dom_ranges.specs.Tables.{range_in};
ghost use Rattle.dom_edit.specs.Whole.{IsWhole, Keeps, Follows, unwatched};
ghost use Rattle.dom_edit.specs.KeptNodes.{KeepsLabels};
ghost use Rattle.dom_edit.specs.Markers.{StandByEdits};
ghost use Rattle.dom_edit.specs.Refusals.{IsRefused};
ghost use Rattle.dom_wrap.specs.Outcomes.{world_after_outcome, insertion_index, HasNumberForSplit, MayBePlacedAt, MayEndAt, MayTake};

use dom_data::split_checked;
use dom_edit::{Refusal, World, check_insert, reference_child};
use dom_kinds::{DomError, Kind};
use dom_point::Point;
use dom_ranges::RangeId;
use dom_tree::NodeId;
use std::alloc::{AllocError, Global};

// Returns whether nodes may be inserted at a start: not in an instruction, a comment, a Text without a parent, or the node itself.
fn check_start(world: &World, start: Point, node: NodeId) -> Result<(), DomError>
    requires { HasNode world.now.tree.forest start.node }
    ensures { MatchResult result (λ _. check_start (unwatched world.now) start node
        ≡ None) (λ e. check_start (unwatched world.now) start node ≡ Some e) }
{
    let top = start.node;
    if world.tree.is_of_kind(top, Kind::ProcessingInstruction)
        || world.tree.is_of_kind(top, Kind::Comment)
    {
        return Err(DomError::HierarchyRequestError);
    }
    if world.tree.is_of_kind(top, Kind::Text) && world.tree.parent(top).is_none() {
        return Err(DomError::HierarchyRequestError);
    }
    if top == node {
        return Err(DomError::HierarchyRequestError);
    }
    Ok(())
}

// Returns the node after a point: its Text, or the child at its offset; none at the end.
pub(crate) fn reference_at(world: &World, point: Point) -> Option<NodeId>
    requires { HasNode world.now.tree.forest point.node }
    ensures { result ≡ reference_at (unwatched world.now) point }
{
    let Point { node, offset } = point;
    if world.tree.is_of_kind(node, Kind::Text) {
        return Some(node);
    }
    world.tree.child_at(node, offset)
}

// Returns the parent of nodes inserted at a point: that of its Text, or its node.
pub(crate) fn parent_at(world: &World, point: Point) -> NodeId
    requires whole { IsWhole world.now }
    requires held { HasNode world.now.tree.forest point.node }
    ensures parent { result ≡ parent_at (unwatched world.now) point }
    ensures held { HasNode world.now.tree.forest result }
{
    let node = point.node;
    if world.tree.is_of_kind(node, Kind::Text) {
        return world.tree.parent(node).unwrap_or(node);
    }
    node
}

// Checks an insertion at a start. No later step refuses.
fn check(world: &World, start: Point, node: NodeId) -> Result<(), DomError>
    requires whole { IsWhole world.now }
    requires start_held { HasNode world.now.tree.forest start.node }
    requires node_held { HasNode world.now.tree.forest node }
    ensures start { OnOk result (check_start (unwatched world.now) start node ≡ None) }
    ensures insert { OnOk result (checks.check_insert world.now.tree.forest
        (parent_at (unwatched world.now) start) node
        (reference_at (unwatched world.now) start) ≡ None) }
    ensures refused { IfErr result (λ e. (r : ℕ) →
        refusal_in (inserted_at r node start (unwatched world.now)) ≡ Some e) }
{
    check_start(world, start, node)?;
    let parent = parent_at(world, start);
    let reference = reference_at(world, start);
    check_insert(&world.tree, parent, node, reference)
}

// Splits the Text in which a start is, if any, and returns the node before which to insert.
fn reference_after(
    world: &mut World,
    alloc: Global,
    start: Point,
) -> Result<Option<NodeId>, AllocError>
    requires whole { IsWhole world.old }
    requires held { HasNode world.old.tree.forest start.node }
    requires within { is_text (unwatched world.old) start.node ≡ true →
        start.offset ≤ length (data_of (unwatched world.old) start.node) }
    requires room { is_text (unwatched world.old) start.node ≡ true →
        world.old.tree.made < 4294967295 }
    ensures reference { IfOk result (λ reference. reference
        ≡ reference_after (unwatched world.old) start) }
    ensures split { OnOk result (Follows world.old world.new (split_at start)) }
    ensures kept { KeepsLabels world.old world.new }
    ensures whole { IsWhole world.new }
{
    let Point { node, offset } = start;
    if !world.tree.is_of_kind(node, Kind::Text) {
        return Ok(world.tree.child_at(node, offset));
    }
    let new = split_checked(world, alloc, node, offset)?;
    Ok(Some(new))
}

// Returns the index of a parent's child, or the number of children.
fn index_before(world: &World, parent: NodeId, reference: Option<NodeId>) -> usize
    requires parent_held { HasNode world.now.tree.forest parent }
    requires reference_held { ForSome reference (λ c. HasNode world.now.tree.forest c) }
    ensures { result ≡ insertion_index (unwatched world.now) parent reference }
{
    match reference {
        Some(child) => world.tree.index(child),
        None => world.tree.length(parent),
    }
}

// Returns how many nodes are inserted: the children of a fragment, or the node alone.
fn entering_count(world: &World, node: NodeId) -> usize
    requires { HasNode world.now.tree.forest node }
    ensures { result ≡ length (nodes_of (unwatched world.now) node) }
{
    if world.tree.is_of_kind(node, Kind::DocumentFragment) {
        return world.tree.count(node);
    }
    1
}

// Returns the offset after the inserted nodes, before a child of the parent or last.
fn offset_past(world: &World, parent: NodeId, reference: Option<NodeId>, node: NodeId) -> usize
    requires whole { IsWhole world.now }
    requires parent_held { HasNode world.now.tree.forest parent }
    requires reference_held { ForSome reference (λ c. HasNode world.now.tree.forest c) }
    requires node_held { HasNode world.now.tree.forest node }
    requires allowed { checks.check_insert world.now.tree.forest parent node reference ≡ None }
    ensures { result ≡ offset_past (unwatched world.now) parent reference node }
{
    // the children of the parent and what comes in are no more than all nodes, whose number is one of the machine
    let _ = world.tree.live();
    let index = index_before(world, parent, reference);
    index + entering_count(world, node)
}

// Moves the end of a collapsed range.
fn end_if_collapsed(world: &mut World, range: RangeId, end: Point)
    requires whole { IsWhole world.old }
    requires sound { MayEndAt world.old range end }
    ensures ended { Follows world.old world.new (end_if_collapsed range end) }
    ensures kept { KeepsLabels world.old world.new }
    ensures whole { IsWhole world.new }
{
    if !world.ranges.holds(range) {
        return;
    }
    let (start, old) = world.ranges.ends(range);
    if start == old {
        // the end is no farther ahead than the start, and within its node: it is not refused
        let _ = world.ranges.set_end(&mut world.tree, range, end);
    }
}

// Removes a node from its parent and inserts it before a child, and moves the end of a collapsed range after it.
fn place(
    world: &mut World,
    alloc: Global,
    range: RangeId,
    node: NodeId,
    parent: NodeId,
    reference: Option<NodeId>,
) -> Result<(), AllocError>
    requires whole { IsWhole world.old }
    requires held { HasNode world.old.tree.forest node }
    requires placeable { MayBePlacedAt world.old range node parent reference }
    ensures allowed { OnOk result ((w : PlainWorld) → Keeps world.old w →
        refusal_in (placed_at range node parent reference w) ≡ None) }
    ensures placed { OnOk result (Follows world.old world.new (λ w.
        world_after_outcome (placed_at range node parent reference w) w)) }
    ensures kept { KeepsLabels world.old world.new }
    ensures whole { IsWhole world.new }
{
    // the checker covers no variable of this type that is passed by value twice
    let behind = reference;
    world.remove(node)?;
    let offset = offset_past(world, parent, behind, node);
    world.insert_checked(alloc, parent, node, reference)?;
    end_if_collapsed(
        world,
        range,
        Point {
            node: parent,
            offset,
        },
    );
    Ok(())
}

// Inserts a node, or the children of a fragment, at the start of a live range, after its check has passed. Only a split Text takes a number.
pub(crate) fn insert_at_start(
    world: &mut World,
    alloc: Global,
    range: RangeId,
    node: NodeId,
) -> Result<(), AllocError>
    requires whole { IsWhole world.old }
    requires held { IsSome (range_in world.old.ranges range) }
    requires node_held { HasNode world.old.tree.forest node }
    requires allowed { MayTake world.old (insert_node range node) }
    requires room { HasNumberForSplit world.old range }
    ensures allowed { OnOk result (refusal_in (insert_node range node (unwatched world.old))
        ≡ None) }
    ensures inserted { OnOk result (Follows world.old world.new (λ w.
        world_after_outcome (insert_node range node w) w)) }
    ensures kept { KeepsLabels world.old world.new }
    ensures whole { IsWhole world.new }
{
    let (start, _) = world.ranges.ends(range);
    let parent = parent_at(world, start);
    let after = reference_after(world, alloc, start)?;
    let reference = reference_child(&world.tree, node, after);
    place(world, alloc, range, node, parent, reference)
}

/// Inserts a node, or the children of a fragment, at the start of a live range. Splits the Text in which that start is.
pub fn insert_node(
    world: &mut World,
    alloc: Global,
    range: RangeId,
    node: NodeId,
) -> Result<(), Refusal>
    requires whole { IsWhole world.old }
    requires held { IsSome (range_in world.old.ranges range) }
    requires node_held { HasNode world.old.tree.forest node }
    requires room { refusal_in (insert_node range node (unwatched world.old)) ≡ None →
        HasNumberForSplit world.old range }
    ensures allowed { OnOk result (refusal_in (insert_node range node (unwatched world.old))
        ≡ None) }
    ensures inserted { OnOk result (Follows world.old world.new (λ w.
        world_after_outcome (insert_node range node w) w)) }
    ensures markers { OnOk result (StandByEdits world.old world.new
        (insert_node_edits range node)) }
    ensures refused { IfErr result (λ e. IsRefused e
        (refusal_in (insert_node range node (unwatched world.old))) world.old world.new) }
    ensures kept { KeepsLabels world.old world.new }
    ensures whole { IsWhole world.new }
{
    let (start, _) = world.ranges.ends(range);
    if let Err(error) = check(world, start, node) {
        return Err(Refusal::Dom(error));
    }
    insert_at_start(world, alloc, range, node)?;
    Ok(())
}
