//! Scenes: rows of calls in a world, and of expected facts. After a call that is out of memory, a scene continues in the world that it left.

ghost use Rattle.std.specs.Prelude.{◌≡◌, IfOk};
ghost use Rattle.dom_edit.specs.Whole.{IsWhole};

use crate::attributes::{set, toggle, unset};
use crate::clones::{copied, imported};
use crate::contents::{contents_copied, delete, extracted, select};
use crate::facts::{Course, Fact, expect_all};
use crate::in_scene::InScene;
use crate::range_insertion::{insert_at_start, put_around};
use crate::small_world::{make_document, make_observer, make_with, watch};
use crate::texts::{fill, join, replace_units, set_units, split_at};
use crate::tree_edits::{adopt, append, clear, insert, remove, remove_child, replace, replace_all};
use dom_edit::{Refusal, World};
use dom_kinds::Kind;
use dom_tree::NodeId;
use std::alloc::{AllocError, Global};
use std::process::Abort;
use std::test::Fail;

/// A call that returns a new node.
#[derive(Clone, Copy)]
pub enum New {
    /// Makes a node of a kind with data, in document 0.
    Make(Kind, &'static str),
    MakeDocument,
    /// Splits a Text at an offset.
    Split(u32, usize),
    /// Clones a node, with or without its descendants.
    Clone(u32, bool),
    /// Imports into a document a node with its descendants.
    Import(u32, u32),
    /// Extracts the contents of live range 0.
    Extract,
    CloneContents,
}

/// A change of a node's data, attributes or children.
#[derive(Clone, Copy)]
pub enum Change {
    SetTextContent(&'static str),
    /// Replaces units from an offset on: how many, and the new ones.
    ReplaceData(usize, usize, &'static [u16]),
    SetData(&'static [u16]),
    Normalize,
    SetAttribute(&'static str, &'static str),
    RemoveAttribute(&'static str),
    /// Toggles an attribute, and expects whether it exists then.
    ToggleAttribute(&'static str, bool),
}

/// A call on the world. A parent precedes the inserted node, and that precedes the child that it is inserted before.
#[derive(Clone, Copy)]
pub enum Call {
    New(New),
    Append(u32, u32),
    Insert(u32, u32, u32),
    /// Replaces the last of these nodes.
    Replace(u32, u32, u32),
    /// Replaces all children of a node by a node, or by nothing.
    ReplaceAll(u32, Option<u32>),
    /// Removes all children of a node without a check.
    Clear(u32),
    RemoveChild(u32, u32),
    Remove(u32),
    /// Adopts into a document.
    Adopt(u32, u32),
    /// Changes the data, attributes or children of a node.
    Change(u32, Change),
    /// Makes live range 0, from after the first unit of one Text to after the first of another.
    Select(u32, u32),
    /// Deletes the contents of live range 0.
    Delete,
    /// Inserts a node at the start of live range 0.
    InsertNode(u32),
    /// Surrounds the contents of live range 0 with a node.
    Surround(u32),
    /// Makes observer 0.
    MakeObserver,
    /// Registers observer 0 for all changes of a node and its descendants.
    Watch(u32),
}

/// A row of a scene.
#[derive(Clone, Copy)]
pub enum Row {
    /// Makes a call, and repeats it if it is out of memory.
    Do(Call),
    /// Makes a call, which may be out of memory.
    Try(Call),
    /// Makes a call if the last tried call was refused.
    Again(Call),
    /// Expects all these facts.
    Then(When, &'static [Fact]),
}

/// The condition on which facts are expected.
#[derive(Clone, Copy)]
pub enum When {
    Always,
    /// The last tried call succeeded.
    Granted,
    /// The last tried call was refused.
    Refused,
    /// This many numbers were given.
    Made(u64),
}

// Makes a call that returns a new node.
fn made(rt: &impl Abort, world: &mut World, alloc: Global, new: New) -> Result<NodeId, Refusal>
    requires { IsWhole world.old }
    ensures { IsWhole world.new }
{
    match new {
        New::Make(kind, text) => make_with(rt, world, alloc, kind, text),
        New::MakeDocument => make_document(rt, world),
        New::Split(node, offset) => split_at(rt, world, alloc, node, offset),
        New::Clone(node, deep) => copied(rt, world, alloc, node, deep),
        New::Import(document, node) => imported(rt, world, alloc, document, node),
        New::Extract => extracted(rt, world, alloc),
        New::CloneContents => contents_copied(rt, world, alloc),
    }
}

// Changes a node.
fn changed(
    rt: &impl Abort,
    world: &mut World,
    alloc: Global,
    node: u32,
    change: Change,
) -> Result<(), Refusal>
    requires { IsWhole world.old }
    ensures { IsWhole world.new }
{
    match change {
        Change::SetTextContent(text) => fill(rt, world, alloc, node, text),
        Change::ReplaceData(offset, count, added) => {
            replace_units(rt, world, alloc, node, (offset, count), added)
        }
        Change::SetData(added) => set_units(rt, world, alloc, node, added),
        Change::Normalize => join(rt, world, alloc, node),
        Change::SetAttribute(key, value) => set(rt, world, alloc, node, key, value),
        Change::RemoveAttribute(key) => unset(rt, world, node, key),
        Change::ToggleAttribute(key, on) => toggle(rt, world, alloc, node, key, on),
    }
}

// Makes a call.
fn called(
    rt: &impl Abort,
    world: &mut World,
    alloc: Global,
    course: &mut Course,
    call: Call,
) -> Result<(), Refusal>
    requires { IsWhole world.old }
    ensures { IsWhole world.new }
{
    match call {
        Call::New(new) => {
            let node = made(rt, world, alloc, new)?;
            course.answers(node.number());
            Ok(())
        }
        Call::Append(parent, node) => append(rt, world, alloc, parent, node),
        Call::Insert(parent, node, child) => insert(rt, world, alloc, parent, node, child),
        Call::Replace(parent, node, child) => replace(rt, world, alloc, parent, node, child),
        Call::ReplaceAll(parent, node) => replace_all(rt, world, alloc, parent, node),
        Call::Clear(parent) => clear(rt, world, alloc, parent),
        Call::RemoveChild(parent, child) => remove_child(rt, world, parent, child),
        Call::Remove(node) => remove(rt, world, node),
        Call::Adopt(document, node) => adopt(rt, world, document, node),
        Call::Change(node, change) => changed(rt, world, alloc, node, change),
        Call::Select(first, last) => select(rt, world, first, last),
        Call::Delete => delete(rt, world, alloc),
        Call::InsertNode(node) => insert_at_start(rt, world, alloc, node),
        Call::Surround(node) => put_around(rt, world, alloc, node),
        Call::MakeObserver => make_observer(rt, world),
        Call::Watch(node) => Ok(watch(rt, world, node)?),
    }
}

// Makes a call that fails with no exception, and returns whether it succeeded.
fn tried(rt: &impl Abort, world: &mut World, alloc: Global, course: &mut Course, call: Call) -> bool
    requires { IsWhole world.old }
    ensures { IsWhole world.new }
{
    match called(rt, world, alloc, course, call) {
        Ok(()) => true,
        Err(refusal) => {
            assert_eq!(rt; refusal, Refusal::Memory);
            false
        }
    }
}

// Returns whether the condition of facts holds.
fn is_due(world: &World, course: Course, when: When) -> bool {
    match when {
        When::Always => true,
        When::Granted => !course.refused,
        When::Refused => course.refused,
        When::Made(made) => world.tree.made() == made,
    }
}

// Plays a row.
fn play_row(
    rt: &impl Abort,
    world: &mut World,
    alloc: Global,
    course: &mut Course,
    row: Row,
) -> Result<(), AllocError>
    requires { IsWhole world.old }
    ensures { IsWhole world.new }
{
    match row {
        Row::Do(call) => {
            if !tried(rt, world, alloc, course, call) && !tried(rt, world, alloc, course, call) {
                return Err(AllocError);
            }
        }
        Row::Try(call) => course.refused = !tried(rt, world, alloc, course, call),
        Row::Again(call) => {
            if course.refused && !tried(rt, world, alloc, course, call) {
                return Err(AllocError);
            }
        }
        Row::Then(when, facts) => {
            if is_due(world, *course, when) {
                expect_all(rt, world, *course, facts);
            }
        }
    }
    Ok(())
}

/// Plays rows in order, on a world.
fn play(
    rt: &impl Abort,
    stage: &mut World,
    alloc: Global,
    course: &mut Course,
    rows: &[Row],
) -> Result<(), AllocError>
    requires { IsWhole stage.old }
    ensures { IsWhole stage.new }
{
    for row in rows {
        play_row(rt, stage, alloc, course, *row)?;
    }
    Ok(())
}

// Plays the first rows of a scene, and then the scene.
fn play_both(
    rt: &impl Abort,
    world: &mut World,
    alloc: Global,
    begun: &[Row],
    scene: &[Row],
) -> Result<(), Fail>
    requires { IsWhole world.old }
{
    let mut course = Course {
        refused: false,
        new: 0,
        older: 0,
    };
    play(rt, world, alloc, &mut course, begun)?;
    play(rt, world, alloc, &mut course, scene)?;
    Ok(())
}

// Returns a world with document 0 alone. If memory is refused, it tries once more. Its view is left out of the contract, so that its callers stay
// cheap to prove.
fn first(alloc: Global) -> Result<World, AllocError>
    ensures { IfOk result IsWhole }
{
    match World::new(alloc) {
        Ok(world) => Ok(world),
        Err(_) => World::new(alloc),
    }
}

// Plays a scene in a world of its own, with document 0 and the given rows first. Only this function drops the world, because that takes long to prove.
fn play_alone(rt: &impl Abort, alloc: Global, begun: &[Row], scene: &[Row]) -> Result<(), Fail> {
    let mut world = first(alloc)?;
    play_both(rt, &mut world, alloc, begun, scene)
}

/// Plays scenes, each with its name, and after the given rows. A failed assertion tells the name.
pub(crate) fn played(
    rt: &impl Abort,
    alloc: Global,
    begun: &[Row],
    scenes: &[(&'static str, &[Row])],
) -> Result<(), Fail> {
    for (scene, rows) in scenes {
        let told = InScene { rt, scene: *scene };
        play_alone(&told, alloc, begun, rows)?;
    }
    Ok(())
}
