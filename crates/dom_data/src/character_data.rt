//! Replacing and reading a node's data (DOM Standard, "Interface CharacterData").

ghost use Rattle.std.specs.Prelude.{◌≡◌, ◌+◌, ◌≤◌, length, true, None, IfOk, OnOk, OnErr};
ghost use Rattle.std.specs.Result.{IfErr};
ghost use Rattle.dom_model.specs.Forests.Kinds.{is_character_data};
ghost use Rattle.dom_model.specs.Forests.Nodes.{kind_passes};
ghost use Rattle.dom_model.specs.DataAndCopies.Data.{data_of, data_record, replace_units, check_offset, replace_data, set_data, substring_data};
ghost use Rattle.dom_model.specs.TokenText.Edits.{replace_data_edits, set_data_edits};
ghost use Rattle.dom_edit.specs.Whole.{IsWhole, Follows, unwatched};
ghost use Rattle.dom_edit.specs.Markers.{StandByEdits};
ghost use Rattle.dom_edit.specs.Refusals.{IsRefused};
ghost use Rattle.dom_data.specs.SubstringRefusal.{IsNamed};
ghost use Rattle.dom_data.specs.KeptNumbers.{KeepsNumbers};

use crate::bodies::splice_data;
use crate::records::{queue_data_record, unqueue_data_record};
use dom_edit::{Refusal, World, data_in};
use dom_kinds::DomError;
use dom_tree::NodeId;
use dom_units::{Units, units_within};
use std::alloc::{AllocError, Global};

// Replaces `count` units from `offset` on by `added`, and queues a record of the old data.
pub(crate) fn replace_units(
    world: &mut World,
    alloc: Global,
    node: NodeId,
    offset: usize,
    count: usize,
    added: &[u16],
) -> Result<(), AllocError>
    requires whole { IsWhole world.old }
    requires kind { kind_passes is_character_data world.old.tree.forest node ≡ true }
    requires within { offset + count ≤ length (data_of (unwatched world.old) node) }
    ensures replaced { OnOk result (Follows world.old world.new (λ w.
        replace_units node offset count added.now (data_record node w))) }
    ensures unchanged { OnErr result (world.new ≡ world.old) }
    ensures nodes { KeepsNumbers world.old world.new }
    ensures whole { IsWhole world.new }
{
    let pending = world.observers.pending_count();
    queue_data_record(world, node)?;
    if let Err(error) = splice_data(&mut world.tree, alloc, node, offset, count, added) {
        unqueue_data_record(world, node, pending);
        return Err(error);
    }
    world.ranges.spliced(node, offset, count, added.len());
    Ok(())
}

/// Replaces `count` units from `offset` on by `added`, and queues a record of the old data ("replace data").
///
/// Refuses an offset past the end with `IndexSizeError`. A count is cut at the end.
pub fn replace_data(
    world: &mut World,
    alloc: Global,
    node: NodeId,
    offset: usize,
    count: usize,
    added: &[u16],
) -> Result<(), Refusal>
    requires whole { IsWhole world.old }
    requires kind { kind_passes is_character_data world.old.tree.forest node ≡ true }
    ensures allowed { OnOk result (check_offset (unwatched world.old) node offset ≡ None) }
    ensures replaced { OnOk result (Follows world.old world.new
        (replace_data node offset count added.now)) }
    ensures markers { OnOk result (StandByEdits world.old world.new
        (replace_data_edits node offset count added.now)) }
    ensures refused { IfErr result (λ e. IsRefused e
        (check_offset (unwatched world.old) node offset) world.old world.new) }
    ensures unchanged { OnErr result (world.new ≡ world.old) }
    ensures kept { KeepsNumbers world.old world.new }
    ensures whole { IsWhole world.new }
{
    if offset > data_in(&world.tree, node).len() {
        return Err(Refusal::Dom(DomError::IndexSizeError));
    }
    replace_data_checked(world, alloc, node, offset, count, added)?;
    Ok(())
}

/// Replaces `count` units from an offset within the data by `added`, as [`replace_data`] does.
pub fn replace_data_checked(
    world: &mut World,
    alloc: Global,
    node: NodeId,
    offset: usize,
    count: usize,
    added: &[u16],
) -> Result<(), AllocError>
    requires whole { IsWhole world.old }
    requires kind { kind_passes is_character_data world.old.tree.forest node ≡ true }
    requires within { offset ≤ length (data_of (unwatched world.old) node) }
    ensures replaced { OnOk result (Follows world.old world.new
        (replace_data node offset count added.now)) }
    ensures markers { OnOk result (StandByEdits world.old world.new
        (replace_data_edits node offset count added.now)) }
    ensures unchanged { OnErr result (world.new ≡ world.old) }
    ensures nodes { KeepsNumbers world.old world.new }
    ensures whole { IsWhole world.new }
{
    let length = data_in(&world.tree, node).len();
    let count = count.min(length - offset);
    replace_units(world, alloc, node, offset, count, added)
}

/// Replaces all data of a node, and queues a record of the old data.
pub fn set_data(
    world: &mut World,
    alloc: Global,
    node: NodeId,
    text: &[u16],
) -> Result<(), AllocError>
    requires whole { IsWhole world.old }
    requires kind { kind_passes is_character_data world.old.tree.forest node ≡ true }
    ensures set { OnOk result (Follows world.old world.new (set_data node text.now)) }
    ensures markers { OnOk result (StandByEdits world.old world.new
        (set_data_edits node text.now)) }
    ensures unchanged { OnErr result (world.new ≡ world.old) }
    ensures nodes { KeepsNumbers world.old world.new }
    ensures whole { IsWhole world.new }
{
    let length = data_in(&world.tree, node).len();
    replace_units(world, alloc, node, 0, length, text)
}

/// Returns a copy of `count` units from `offset` on ("substring data").
///
/// Refuses an offset past the end with `IndexSizeError`. A count is cut at the end.
pub fn substring(
    world: &World,
    alloc: Global,
    node: NodeId,
    offset: usize,
    count: usize,
) -> Result<Units, Refusal>
    requires whole { IsWhole world.now }
    requires kind { kind_passes is_character_data world.now.tree.forest node ≡ true }
    ensures allowed { OnOk result (check_offset (unwatched world.now) node offset ≡ None) }
    ensures units { IfOk result (λ units. units ≡ substring_data (unwatched world.now) node offset
        count) }
    ensures refused { IfErr result (λ e. IsNamed e
        (check_offset (unwatched world.now) node offset)) }
{
    let data = data_in(&world.tree, node);
    let length = data.len();
    if offset > length {
        return Err(Refusal::Dom(DomError::IndexSizeError));
    }
    let count = count.min(length - offset);
    let units = Units::from_units(alloc, units_within(data, offset, count))?;
    Ok(units)
}
