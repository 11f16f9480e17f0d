//! Room for a long text, made before its command changes anything.

ghost use Rattle.std.specs.Prelude.{◌≡◌};

use dom_commands::{Command, Texts};
use dom_data::reserve_data;
use dom_edit::{World, data_in};
use dom_tree::NodeId;
use std::alloc::{AllocError, Global};

// A text of fewer units gets no room before its command.
const LONG: usize = 1024;

// Reserves room in the data of a node, of which `count` units from `offset` on are to be replaced by `added` units.
//
// It reserves none if the command is going to be refused.
fn reserve(
    world: &mut World,
    alloc: Global,
    node: NodeId,
    offset: usize,
    count: usize,
    added: usize,
) -> Result<(), AllocError>
    ensures { world.new ≡ world.old }
{
    if added < LONG || !world.tree.holds(node) || !world.tree.has_data(node) {
        return Ok(());
    }
    let length = data_in(&world.tree, node).len();
    if length < offset {
        return Ok(());
    }
    let replaced = count.min(length - offset);
    reserve_data(world, alloc, node, added.saturating_sub(replaced))
}

// Reserves room for the text of a command on data or text.
fn make_room_for_text(
    world: &mut World,
    numbers: u64,
    alloc: Global,
    command: &Texts,
) -> Result<(), AllocError>
    ensures { world.new ≡ world.old }
{
    match command {
        Texts::SetData(node, text) => reserve(world, alloc, *node, 0, usize::MAX, text.len()),
        Texts::SetTextContent(node, text) if world.tree.made() < numbers => reserve(
            world,
            alloc,
            *node,
            0,
            usize::MAX,
            text.len(),
        ),
        Texts::AppendData(node, text) => reserve(world, alloc, *node, 0, 0, text.len()),
        Texts::InsertData(node, offset, text) => reserve(
            world,
            alloc,
            *node,
            *offset as usize,
            0,
            text.len(),
        ),
        Texts::ReplaceData(node, offset, count, text) => reserve(
            world,
            alloc,
            *node,
            *offset as usize,
            *count as usize,
            text.len(),
        ),
        _ => Ok(()),
    }
}

/// Reserves room for the text of a command, if it is long. Without memory for it nothing has changed.
#[inline(always)]
pub(crate) fn make_room(
    world: &mut World,
    numbers: u64,
    alloc: Global,
    command: &Command,
) -> Result<(), AllocError>
    ensures { world.new ≡ world.old }
{
    match command {
        Command::Texts(command) => make_room_for_text(world, numbers, alloc, command),
        _ => Ok(()),
    }
}
