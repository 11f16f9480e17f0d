//! Surrounding the contents of a live range (DOM Standard, "Interface Range", surroundContents).

ghost use Rattle.std.specs.Prelude.{◌≡◌, ◌≤◌, None, OnOk, IsSome};
ghost use Rattle.std.specs.Result.{IfErr};
ghost use Rattle.dom_model.specs.Forests.Forest.{HasNode};
ghost use Rattle.dom_model.specs.MutationAlgorithms.Editing.{replace_all};
ghost use Rattle.dom_model.specs.RangesAndContents.Ranges.{check_parent};
ghost use Rattle.dom_model.specs.RangesAndContents.Wrapping.{surround, try_select, check_whole_surround};
ghost use Rattle.dom_model.specs.TokenText.Edits.{surround_edits};
ghost use Rattle.dom_ranges.specs.Tables.{range_in};
ghost use Rattle.dom_edit.specs.Whole.{IsWhole, Follows, unwatched};
ghost use Rattle.dom_edit.specs.KeptNodes.{KeepsLabels};
ghost use Rattle.dom_edit.specs.Markers.{StandByEdits};
ghost use Rattle.dom_edit.specs.Refusals.{IsRefused};
ghost use Rattle.dom_wrap.specs.Outcomes.{world_after_outcome, put_around, HasNumberForSplit, Passes, MayTake};

use crate::insert_into_range::insert_at_start;
use crate::surround_check::can_surround;
use dom_content::extract_checked;
use dom_edit::{Refusal, World};
use dom_ranges::RangeId;
use dom_tree::NodeId;
use std::alloc::{AllocError, Global};

// Removes all children of a node.
fn remove_children(world: &mut World, alloc: Global, parent: NodeId) -> Result<(), AllocError>
    requires whole { IsWhole world.old }
    requires held { HasNode world.old.tree.forest parent }
    ensures removed { OnOk result (Follows world.old world.new (replace_all None parent)) }
    ensures kept { KeepsLabels world.old world.new }
    ensures whole { IsWhole world.new }
{
    if world.tree.first(parent).is_none() {
        return Ok(());
    }
    world.replace_children_checked(alloc, parent, None)
}

// Sets a live range around a node that has a parent.
fn select(world: &mut World, range: RangeId, node: NodeId)
    requires whole { IsWhole world.old }
    requires held { IsSome (range_in world.old.ranges range) }
    requires node_held { HasNode world.old.tree.forest node }
    requires allowed { check_parent world.old.tree.forest node ≡ None }
    ensures selected { Passes world.old world.new (try_select range node) }
    ensures kept { KeepsLabels world.old world.new }
    ensures whole { IsWhole world.new }
{
    world.ranges.select_checked(&world.tree, range, node);
}

// Inserts a node at the start of a live range, moves a fragment's children into the node, and sets the range around it.
fn put_around(
    world: &mut World,
    alloc: Global,
    range: RangeId,
    node: NodeId,
    fragment: NodeId,
) -> Result<(), AllocError>
    requires whole { IsWhole world.old }
    requires held { IsSome (range_in world.old.ranges range) }
    requires node_held { HasNode world.old.tree.forest node }
    requires fragment_held { HasNode world.old.tree.forest fragment }
    requires allowed { MayTake world.old (put_around range node fragment) }
    requires room { HasNumberForSplit world.old range }
    ensures put { OnOk result (Passes world.old world.new (put_around range node fragment)) }
    ensures kept { KeepsLabels world.old world.new }
    ensures whole { IsWhole world.new }
{
    insert_at_start(world, alloc, range, node)?;
    world.insert_checked(alloc, node, fragment, None)?;
    select(world, range, node);
    Ok(())
}

// Surrounds the contents of a live range with a node, after `can_surround` has passed.
fn surround_allowed(
    world: &mut World,
    alloc: Global,
    range: RangeId,
    node: NodeId,
) -> Result<(), AllocError>
    requires whole { IsWhole world.old }
    requires held { IsSome (range_in world.old.ranges range) }
    requires node_held { HasNode world.old.tree.forest node }
    requires room { (world_after_outcome (surround range node (unwatched world.old)) (unwatched world.old)).made
        ≤ 4294967295 }
    requires allowed { check_whole_surround range node (unwatched world.old) ≡ None }
    ensures surrounded { OnOk result (Follows world.old world.new (λ w.
        world_after_outcome (surround range node w) w)) }
    ensures kept { KeepsLabels world.old world.new }
    ensures whole { IsWhole world.new }
{
    let fragment = extract_checked(world, alloc, range)?;
    remove_children(world, alloc, node)?;
    put_around(world, alloc, range, node, fragment)
}

/// Moves the contents of a live range into a node, inserts that node in their place, and selects it.
///
/// All or nothing: if a step of it would be refused, returns that exception and changes nothing.
pub fn surround(
    world: &mut World,
    alloc: Global,
    range: RangeId,
    node: NodeId,
) -> Result<(), Refusal>
    requires whole { IsWhole world.old }
    requires held { IsSome (range_in world.old.ranges range) }
    requires node_held { HasNode world.old.tree.forest node }
    requires room { (world_after_outcome (surround range node (unwatched world.old)) (unwatched world.old)).made
        ≤ 4294967295 }
    ensures allowed { OnOk result (check_whole_surround range node (unwatched world.old) ≡ None) }
    ensures surrounded { OnOk result (Follows world.old world.new (λ w.
        world_after_outcome (surround range node w) w)) }
    ensures markers { OnOk result (StandByEdits world.old world.new (surround_edits range node)) }
    ensures refused { IfErr result (λ e. IsRefused e
        (check_whole_surround range node (unwatched world.old)) world.old world.new) }
    ensures kept { KeepsLabels world.old world.new }
    ensures whole { IsWhole world.new }
{
    if let Err(error) = can_surround(world, range, node) {
        return Err(Refusal::Dom(error));
    }
    surround_allowed(world, alloc, range, node)?;
    Ok(())
}
