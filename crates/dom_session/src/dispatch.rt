//! The answer to each command.

ghost use Rattle.std.specs.Prelude.{◌≡◌, ◌≤◌, IfOk, OnErr, true};
ghost use Rattle.dom_edit.specs.Whole.{IsShown};
ghost use Rattle.dom_commands.specs.Views.{command_view};
ghost use Rattle.dom_session.specs.SessionViews.{IsStep};
ghost use Rattle.dom_session.specs.OutOfMemory.{KeepsWholeWorld, IsAsItWas};
ghost use Rattle.dom_session.specs.GoingOn.{is_question, goes_on, is_unchanged_in};
ghost use Rattle.dom_session.specs.AnswerBounds.{numbered};

use crate::attributes::change_attributes;
use crate::character_data::change_texts;
use crate::copies::copy_nodes;
use crate::live_ranges::act_on_ranges;
use crate::node_creation::make_nodes;
use crate::node_queries::ask_tree;
use crate::observers::watch;
use crate::range_contents::change_contents;
use crate::range_queries::compare;
use crate::range_setters::set_ranges;
use crate::static_ranges::act_on_statics;
use crate::traversal::traverse;
use crate::tree_edits::edit_tree;
use dom_commands::{Command, Reply};
use dom_edit::World;
use std::alloc::{AllocError, Global};

/// Answers a command, where memory is there: each group of commands by the function for it.
pub(crate) fn answered(
    world: &mut World,
    numbers: u64,
    alloc: Global,
    command: Command,
) -> Result<Reply, AllocError>
    requires numbers { numbers ≤ 4294967295 }
    requires shown { IsShown world.old }
    ensures step { IfOk result (IsStep world.old world.new (numbered numbers)
        (command_view command)) }
    ensures left { OnErr result (KeepsWholeWorld world.old world.new) }
    ensures asked { is_question (command_view command) ≡ true →
        OnErr result (world.new ≡ world.old) }
    ensures goes_on { goes_on (command_view command) ≡ true →
        OnErr result (IsAsItWas world.old world.new) }
    ensures same { is_unchanged_in world.old (command_view command) ≡ true →
        OnErr result (world.new ≡ world.old) }
{
    match command {
        Command::Making(command) => Ok(Reply::Brief(make_nodes(world, numbers, alloc, command)?)),
        Command::Editing(command) => Ok(Reply::Brief(edit_tree(world, alloc, command)?)),
        Command::Asking(command) => ask_tree(world, alloc, command),
        Command::Ranging(command) => act_on_ranges(world, numbers, command),
        Command::Setting(command) => Ok(set_ranges(world, command)),
        Command::Comparing(command) => Ok(compare(world, command)),
        Command::StaticRanging(command) => act_on_statics(world, numbers, command),
        Command::Traversing(command) => traverse(world, numbers, command),
        Command::Observing(command) => watch(world, numbers, alloc, command),
        Command::Texts(command) => change_texts(world, numbers, alloc, command),
        Command::Attributes(command) => change_attributes(world, alloc, command),
        Command::Copying(command) => copy_nodes(world, numbers, alloc, command),
        Command::Contents(command) => change_contents(world, numbers, alloc, command),
    }
}
