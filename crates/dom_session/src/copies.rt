//! Copies, equality, and the relative position of nodes (DOM Standard, "Interface Node", "Interface Document").

ghost use Rattle.std.specs.Prelude.{◌≡◌, ◌≤◌, ◌+◌, ◌*◌, nat_lt, IfOk, OnErr, true};
ghost use Rattle.dom_model.specs.declared.Kind.TheVariants.{Document};
ghost use Rattle.dom_model.specs.Forests.Forest.{HasNode, size};
ghost use Rattle.dom_model.specs.Commands.Command.{ImportNode, CloneNode, IsEqual, IsContaining, ComparePosition};
ghost use Rattle.dom_model.specs.Commands.Guards.{Bounds};
ghost use Rattle.dom_edit.specs.Whole.{IsShown};
ghost use Rattle.dom_commands.specs.Views.{copying_view};
ghost use Rattle.dom_session.specs.SessionViews.{IsStep};
ghost use Rattle.dom_session.specs.OutOfMemory.{KeepsWholeWorld};
ghost use Rattle.dom_session.specs.GoingOn.{goes_on};
ghost use Rattle.dom_session.specs.AnswerBounds.{numbered};

use crate::refusals::reply_to;
use dom_commands::{Answer, Brief, Copying, Reply};
use dom_edit::World;
use dom_kinds::{DomError, Kind};
use dom_model::OwnError;
use dom_point::{Point, found_order, same_root};
use dom_tree::NodeId;
use std::alloc::{AllocError, Global};

/// Returns whether too few numbers are left for a command that copies: it needs twice the nodes in use, and eight.
pub(crate) fn lacks_numbers(world: &World, numbers: u64) -> bool
    requires { numbers ≤ 4294967295 }
    ensures { result ≡ nat_lt numbers (world.now.tree.made + (2 * size world.now.tree.forest + 8)) }
{
    let made = world.tree.made();
    let live = world.tree.live();
    made >= numbers || live >= numbers || numbers - made < 2 * live + 8
}

/// Copies a node into a document, with or without its descendants.
pub(crate) fn import_node(
    world: &mut World,
    numbers: u64,
    alloc: Global,
    document: NodeId,
    node: NodeId,
    deep: bool,
) -> Result<Reply, AllocError>
    requires numbers { numbers ≤ 4294967295 }
    requires shown { IsShown world.old }
    ensures step { IfOk result (IsStep world.old world.new (numbered numbers)
        (ImportNode document node deep)) }
    ensures left { OnErr result (KeepsWholeWorld world.old world.new) }
{
    if !world.tree.holds(document) || !world.tree.holds(node) {
        return Ok(Reply::Brief(Brief::Own(OwnError::NoSuchObject)));
    }
    if !world.tree.is_of_kind(document, Kind::Document) {
        return Ok(Reply::Brief(Brief::Dom(DomError::TypeError)));
    }
    if lacks_numbers(world, numbers) {
        return Ok(Reply::Brief(Brief::Own(OwnError::Limit)));
    }
    match dom_clone::import(world, alloc, document, node, deep) {
        Ok(copy) => Ok(Reply::Brief(Brief::Number(copy.number()))),
        Err(refusal) => reply_to(refusal),
    }
}

/// Copies a node, with or without its descendants.
pub(crate) fn clone_node(
    world: &mut World,
    numbers: u64,
    alloc: Global,
    node: NodeId,
    deep: bool,
) -> Result<Reply, AllocError>
    requires numbers { numbers ≤ 4294967295 }
    requires shown { IsShown world.old }
    ensures step { IfOk result (IsStep world.old world.new (numbered numbers)
        (CloneNode node deep)) }
    ensures left { OnErr result (KeepsWholeWorld world.old world.new) }
{
    if !world.tree.holds(node) {
        return Ok(Reply::Brief(Brief::Own(OwnError::NoSuchObject)));
    }
    if lacks_numbers(world, numbers) {
        return Ok(Reply::Brief(Brief::Own(OwnError::Limit)));
    }
    let copy = dom_clone::clone_node(world, alloc, node, deep)?;
    Ok(Reply::Brief(Brief::Number(copy.number())))
}

/// Returns whether two nodes are equal; a missing node equals none.
pub(crate) fn is_equal(world: &World, node: NodeId, other: Option<NodeId>) -> Reply
    requires shown { IsShown world.now }
    ensures { (b : Bounds) → IsStep world.now world.now b (IsEqual node other) result }
{
    if !world.tree.holds(node) {
        return Reply::Brief(Brief::Own(OwnError::NoSuchObject));
    }
    let Some(other) = other else {
        return Reply::Done(Answer::Flag(false));
    };
    if !world.tree.holds(other) {
        return Reply::Brief(Brief::Own(OwnError::NoSuchObject));
    }
    Reply::Done(Answer::Flag(dom_clone::is_equal(&world.tree, node, other)))
}

/// Returns whether the second is an inclusive descendant of the first; a missing node is not.
pub(crate) fn contains(world: &World, node: NodeId, other: Option<NodeId>) -> Reply
    requires shown { IsShown world.now }
    ensures { (b : Bounds) → IsStep world.now world.now b (IsContaining node other) result }
{
    if !world.tree.holds(node) {
        return Reply::Brief(Brief::Own(OwnError::NoSuchObject));
    }
    let Some(other) = other else {
        return Reply::Done(Answer::Flag(false));
    };
    if !world.tree.holds(other) {
        return Reply::Brief(Brief::Own(OwnError::NoSuchObject));
    }
    Reply::Done(Answer::Flag(dom_clone::contains(&world.tree, node, other)))
}

// Caches the indices that decide which of two nodes comes first, for the next question.
fn cache_order(world: &mut World, node: NodeId, other: NodeId)
    requires held { HasNode world.old.tree.forest node }
    requires other_held { HasNode world.old.tree.forest other }
    ensures { world.new ≡ world.old }
{
    if same_root(&world.tree, node, other) {
        let at_other = Point {
            node: other,
            offset: 0,
        };
        let _ = found_order(&mut world.tree, Point { node, offset: 0 }, at_other);
    }
}

/// Returns the position of the second relative to the first.
pub(crate) fn compare_position(world: &mut World, node: NodeId, other: NodeId) -> Reply
    requires shown { IsShown world.old }
    ensures step { (b : Bounds) → IsStep world.old world.new b (ComparePosition node other) result }
    ensures unchanged { world.new ≡ world.old }
{
    if !world.tree.holds(node) || !world.tree.holds(other) {
        return Reply::Brief(Brief::Own(OwnError::NoSuchObject));
    }
    cache_order(world, node, other);
    let position = dom_clone::position(&world.tree, node, other);
    Reply::Brief(Brief::Number(u32::from(position)))
}

/// Answers the commands that copy or compare nodes.
pub(crate) fn copy_nodes(
    world: &mut World,
    numbers: u64,
    alloc: Global,
    command: Copying,
) -> Result<Reply, AllocError>
    requires numbers { numbers ≤ 4294967295 }
    requires shown { IsShown world.old }
    ensures step { IfOk result (IsStep world.old world.new (numbered numbers)
        (copying_view command)) }
    ensures left { OnErr result (KeepsWholeWorld world.old world.new) }
    ensures unchanged { goes_on (copying_view command) ≡ true →
        OnErr result (world.new ≡ world.old) }
{
    match command {
        Copying::ImportNode(document, node, deep) => import_node(
            world, numbers, alloc, document, node, deep,
        ),
        Copying::CloneNode(node, deep) => clone_node(world, numbers, alloc, node, deep),
        Copying::IsEqual(node, other) => Ok(is_equal(world, node, other)),
        Copying::IsContaining(node, other) => Ok(contains(world, node, other)),
        Copying::ComparePosition(node, other) => Ok(compare_position(world, node, other)),
    }
}
