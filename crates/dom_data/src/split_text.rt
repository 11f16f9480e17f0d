//! Splitting a Text (DOM Standard, "Interface Text").

ghost use Rattle.std.specs.Prelude.{◌≡◌, ◌<◌, ◌≤◌, ◌^◌, true, Some, None, length, IfOk, OnOk};
ghost use Rattle.std.specs.Result.{IfErr};
ghost use Rattle.dom_model.specs.declared.Kind.TheVariants.{Text};
ghost use Rattle.dom_model.specs.Forests.Forest.{HasNode, parent_of, children_of};
ghost use Rattle.dom_model.specs.Forests.Nodes.{is_of_kind};
ghost use Rattle.dom_model.specs.DataAndCopies.Data.{data_of, check_offset, split};
ghost use Rattle.dom_model.specs.TokenText.Edits.{split_edits};
ghost use Rattle.dom_edit.specs.Whole.{CoversHeld, IsWhole, Follows, unwatched};
ghost use Rattle.dom_edit.specs.KeptNodes.{KeepsLabels, KeepsNodes};
ghost use Rattle.dom_edit.specs.Markers.{StandByEdits};
ghost use Rattle.dom_edit.specs.Refusals.{IsRefused};
ghost use Rattle.dom_data.specs.Tails.{IsTail, HasNextSibling};
ghost use Rattle.dom_data.specs.SplitInTurn.{put_behind, ends_behind};

use crate::bodies::move_tail;
use crate::new_text::make_text;
use crate::normalization::index_if_needed;
use crate::records::queue_data_record;
use dom_edit::{Content, Refusal, World, data_in, document_in};
use dom_kinds::DomError;
use dom_tree::{NodeId, Tree};
use dom_units::Units;
use std::alloc::{AllocError, Global};

// States a law: the number of children fits a machine number.
fn counted(tree: &Tree<Content>, parent: NodeId)
    requires { HasNode tree.now.forest parent }
    ensures { length (children_of tree.now.forest parent) < 2 ^ 64 }
{
    let count = tree.count(parent);
    let _ = count;
}

// Inserts the new Text after the split one, if that has a parent.
fn put_behind(world: &mut World, alloc: Global, node: NodeId, new: NodeId) -> Result<(), AllocError>
    requires whole { IsWhole world.old }
    requires tail { IsTail world.old node new }
    ensures behind { OnOk result (Follows world.old world.new
        (put_behind node new (parent_of world.old.tree.forest node))) }
    ensures parent { OnOk result (parent_of world.new.tree.forest node
        ≡ parent_of world.old.tree.forest node) }
    ensures room { OnOk result (HasNextSibling world.new.tree.forest node) }
    ensures kept { KeepsNodes world.old world.new }
    ensures whole { IsWhole world.new }
{
    match world.tree.parent(node) {
        Some(parent) => {
            let next = world.tree.next(node);
            world.insert(alloc, parent, new, next)
        }
        None => Ok(()),
    }
}

// Moves the ends beyond the offset into the new Text, and one after the old Text in the parent to after the new one.
fn split_ends(world: &mut World, node: NodeId, offset: usize, new: NodeId)
    requires held { HasNode world.old.tree.forest node }
    requires new_held { HasNode world.old.tree.forest new }
    requires room { HasNextSibling world.old.tree.forest node }
    requires covered { CoversHeld world.old.tree world.old.ranges.covered }
    ensures { world.new ≡ record world.old {
      ranges = record world.old.ranges {
        ranges = ends_behind node offset new
            (parent_of world.old.tree.forest node) (unwatched world.old);
      };
    } }
{
    world.tree.state_law();
    match world.tree.parent(node) {
        Some(parent) => {
            counted(&world.tree, parent);
            let index = index_if_needed(world, parent, node);
            world.ranges.was_split(node, offset, new, parent, index);
        }
        None => {}
    }
}

/// Splits a Text at an offset: a new Text gets the units beyond it, and is inserted after the old one if that has a parent ("split").
///
/// Returns the new Text. Refuses an offset past the end with `IndexSizeError`.
pub fn split(
    world: &mut World,
    alloc: Global,
    node: NodeId,
    offset: usize,
) -> Result<NodeId, Refusal>
    requires whole { IsWhole world.old }
    requires kind { is_of_kind Text world.old.tree.forest node ≡ true }
    requires room { check_offset (unwatched world.old) node offset ≡ None →
        world.old.tree.made < 4294967295 }
    ensures number { IfOk result (λ id. id ≡ world.old.tree.made) }
    ensures allowed { OnOk result (check_offset (unwatched world.old) node offset ≡ None) }
    ensures split { OnOk result (Follows world.old world.new (split node offset)) }
    ensures markers { OnOk result (StandByEdits world.old world.new (split_edits node offset)) }
    ensures refused { IfErr result (λ e. IsRefused e
        (check_offset (unwatched world.old) node offset) world.old world.new) }
    ensures kept { KeepsLabels world.old world.new }
    ensures whole { IsWhole world.new }
{
    if offset > data_in(&world.tree, node).len() {
        return Err(Refusal::Dom(DomError::IndexSizeError));
    }
    let new = split_checked(world, alloc, node, offset)?;
    Ok(new)
}

/// Splits a Text at an offset within its data, as [`split`] does.
pub fn split_checked(
    world: &mut World,
    alloc: Global,
    node: NodeId,
    offset: usize,
) -> Result<NodeId, AllocError>
    requires whole { IsWhole world.old }
    requires kind { is_of_kind Text world.old.tree.forest node ≡ true }
    requires within { offset ≤ length (data_of (unwatched world.old) node) }
    requires room { world.old.tree.made < 4294967295 }
    ensures number { IfOk result (λ id. id ≡ world.old.tree.made) }
    ensures split { OnOk result (Follows world.old world.new (split node offset)) }
    ensures markers { OnOk result (StandByEdits world.old world.new (split_edits node offset)) }
    ensures kept { KeepsLabels world.old world.new }
    ensures whole { IsWhole world.new }
{
    let count = data_in(&world.tree, node).len() - offset;
    let document = document_in(&world.tree, node);
    let new = make_text(world, alloc, document, Units::new(alloc))?;
    put_behind(world, alloc, node, new)?;
    queue_data_record(world, node)?;
    move_tail(&mut world.tree, alloc, node, offset, new)?;
    split_ends(world, node, offset, new);
    world.ranges.spliced(node, offset, count, 0);
    Ok(new)
}
