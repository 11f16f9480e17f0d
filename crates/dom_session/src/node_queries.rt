//! Questions about nodes (DOM Standard, "Interface Node").

ghost use Rattle.std.specs.Prelude.{◌≡◌, IfOk, OnErr};
ghost use Rattle.dom_model.specs.Forests.Forest.{HasNode, children_of};
ghost use Rattle.dom_model.specs.Commands.Command.{DescribeNode, Children, Index, Length, Root};
ghost use Rattle.dom_model.specs.Commands.Guards.{Bounds};
ghost use Rattle.dom_edit.specs.Whole.{IsShown};
ghost use Rattle.dom_commands.specs.Views.{asking_view};
ghost use Rattle.dom_session.specs.SessionViews.{IsStep, RepliesTo};
ghost use Rattle.dom_session.specs.OutOfMemory.{KeepsWholeWorld};

use crate::tree_rows::print_tree;
use dom_commands::{Answer, Asking, Brief, Description, Reply};
use dom_edit::{Content, World};
use dom_model::OwnError;
use dom_tree::{NodeId, Tree};
use std::alloc::{AllocError, Global};

/// Returns a node's kind and its place in the tree.
pub(crate) fn describe_node(world: &World, alloc: Global, node: NodeId) -> Result<Reply, AllocError>
    ensures { IfOk result (λ reply. (b : Bounds) →
        IsStep world.now world.now b (DescribeNode node) reply) }
{
    if !world.tree.holds(node) {
        return Ok(Reply::Brief(Brief::Own(OwnError::NoSuchObject)));
    }
    let label = world.tree.label(node).try_clone(alloc)?;
    let description = Description {
        document: world.tree.document_of(node),
        label,
        next: world.tree.next(node),
        parent: world.tree.parent(node),
        previous: world.tree.prev(node),
    };
    let boxed = Box::new(alloc, description)?;
    Ok(Reply::Done(Answer::NodeAt(boxed)))
}

// Returns the numbers of a node's children, in order.
fn child_numbers(
    tree: &Tree<Content>,
    alloc: Global,
    parent: NodeId,
) -> Result<Vec<u32>, AllocError>
    requires { HasNode tree.now.forest parent }
    ensures { IfOk result (λ numbers. numbers.items ≡ children_of tree.now.forest parent) }
{
    let mut numbers: Vec<u32> = Vec::with_capacity(alloc, tree.count(parent))?;
    for child in tree.children(parent) {
        numbers.push(child.number())?;
    }
    Ok(numbers)
}

/// Returns the children of a node, in order.
pub(crate) fn children(world: &World, alloc: Global, node: NodeId) -> Result<Reply, AllocError>
    ensures { IfOk result (λ reply. (b : Bounds) →
        IsStep world.now world.now b (Children node) reply) }
{
    if !world.tree.holds(node) {
        return Ok(Reply::Brief(Brief::Own(OwnError::NoSuchObject)));
    }
    let numbers = child_numbers(&world.tree, alloc, node)?;
    Ok(Reply::Done(Answer::Numbers(numbers)))
}

/// Returns the number of siblings before a node. If no cached index is near, it counts all of them and caches each index.
pub(crate) fn index(world: &mut World, node: NodeId) -> Reply
    ensures step { (b : Bounds) → IsStep world.old world.new b (Index node) result }
    ensures own { RepliesTo world.old (Index node) result }
    ensures unchanged { world.new ≡ world.old }
{
    if !world.tree.holds(node) {
        return Reply::Brief(Brief::Own(OwnError::NoSuchObject));
    }
    Reply::Done(Answer::Count(world.tree.found_index(node)))
}

/// Caches the index of a node for the next question. If no cached index is near, it counts all siblings.
pub(crate) fn cache_index(world: &mut World, node: NodeId)
    requires held { HasNode world.old.tree.forest node }
    ensures { world.new ≡ world.old }
{
    let _ = world.tree.found_index(node);
}

/// Returns the length of a node.
pub(crate) fn length(world: &World, node: NodeId) -> Reply
    ensures step { (b : Bounds) → IsStep world.now world.now b (Length node) result }
    ensures own { RepliesTo world.now (Length node) result }
{
    if !world.tree.holds(node) {
        return Reply::Brief(Brief::Own(OwnError::NoSuchObject));
    }
    Reply::Done(Answer::Count(world.tree.length(node)))
}

/// Returns the root of a node.
pub(crate) fn root(world: &World, node: NodeId) -> Reply
    ensures step { (b : Bounds) → IsStep world.now world.now b (Root node) result }
    ensures own { RepliesTo world.now (Root node) result }
{
    if !world.tree.holds(node) {
        return Reply::Brief(Brief::Own(OwnError::NoSuchObject));
    }
    Reply::Brief(Brief::Number(world.tree.root(node).number()))
}

/// Answers the questions about nodes.
pub(crate) fn ask_tree(
    world: &mut World,
    alloc: Global,
    command: Asking,
) -> Result<Reply, AllocError>
    requires shown { IsShown world.old }
    ensures step { IfOk result (λ reply. (b : Bounds) →
        IsStep world.old world.new b (asking_view command) reply) }
    ensures left { OnErr result (KeepsWholeWorld world.old world.new) }
    ensures unchanged { OnErr result (world.new ≡ world.old) }
{
    match command {
        Asking::DescribeNode(node) => describe_node(world, alloc, node),
        Asking::Children(node) => children(world, alloc, node),
        Asking::Index(node) => Ok(index(world, node)),
        Asking::Length(node) => Ok(length(world, node)),
        Asking::Root(node) => Ok(root(world, node)),
        Asking::Tree(top) => print_tree(world, alloc, top),
    }
}
