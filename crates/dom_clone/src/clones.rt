//! Copies of trees.

ghost use Rattle.std.specs.Prelude.{◌≡◌, ℕ, ◌+◌, ◌<◌, ◌≤◌, true, if◌then◌else◌, ◌++◌, Some, None, IfSome, IfOk, OnOk, OnErr, unwrap_or};
ghost use Rattle.std.specs.Option.{ForSome};
ghost use Rattle.std.specs.Result.{IfErr};
ghost use Rattle.dom_model.specs.declared.Kind.TheVariants.{Document};
ghost use Rattle.dom_model.specs.Forests.Kinds.{is_kind};
ghost use Rattle.dom_model.specs.Forests.Forest.{HasNode, size, entry_in};
ghost use Rattle.dom_model.specs.Worlds.Making.{made_node};
ghost use Rattle.dom_model.specs.Forests.Nodes.{is_of_kind};
ghost use Rattle.dom_model.specs.DataAndCopies.Clones.{original, with_copies, clone_node, import_node};
ghost use Rattle.dom_tree.specs.PutConditions.{MayStand};
ghost use Rattle.dom_edit.specs.Whole.{IsWhole, Follows};
ghost use Rattle.dom_edit.specs.Refusals.{check_adopt, IsRefused};
ghost use Rattle.dom_clone.specs.Clones.{made_under};
ghost use Rattle.dom_edit.specs.OlderNodes.{LeavesAll};

use crate::walk_stack::{Waiting, wait_for};
use dom_edit::{Content, Refusal, World, document_in};
use dom_kinds::{DomError, Kind};
use dom_tree::{NodeId, Tree};
use std::alloc::{AllocError, Global};

/// Copies a node, with its descendants if the copy is deep (clone).
///
/// The copy is a root. Its node document is that of the node; a copied Document is the node document of its copies.
pub fn clone_node(
    world: &mut World,
    alloc: Global,
    node: NodeId,
    deep: bool,
) -> Result<NodeId, AllocError>
    requires whole { IsWhole world.old }
    requires held { HasNode world.old.tree.forest node }
    requires room { world.old.tree.made + size (original deep node world.old.tree.forest)
        ≤ 4294967295 }
    ensures number { IfOk result (λ id. id ≡ world.old.tree.made) }
    ensures cloned { OnOk result (Follows world.old world.new (clone_node deep node)) }
    ensures left { LeavesAll world.old world.new }
    ensures whole { IsWhole world.new }
{
    let document = document_of_copies(&world.tree, node);
    copy_tree(world, alloc, node, deep, document)
}

/// Copies a node into a document, with its descendants if the copy is deep (import).
///
/// Refuses a Document with `NotSupportedError`.
pub fn import(
    world: &mut World,
    alloc: Global,
    document: NodeId,
    node: NodeId,
    deep: bool,
) -> Result<NodeId, Refusal>
    requires whole { IsWhole world.old }
    requires document_kind { is_of_kind Document world.old.tree.forest document ≡ true }
    requires held { HasNode world.old.tree.forest node }
    requires room { check_adopt world.old.tree.forest node ≡ None →
        world.old.tree.made + size (original deep node world.old.tree.forest) ≤ 4294967295 }
    ensures allowed { OnOk result (check_adopt world.old.tree.forest node ≡ None) }
    ensures number { IfOk result (λ id. id ≡ world.old.tree.made) }
    ensures imported { OnOk result (Follows world.old world.new (import_node document deep node)) }
    ensures refused { IfErr result (λ e. IsRefused e (check_adopt world.old.tree.forest node)
        world.old world.new) }
    ensures left { LeavesAll world.old world.new }
    ensures whole { IsWhole world.new }
{
    if world.tree.is_of_kind(node, Kind::Document) {
        return Err(Refusal::Dom(DomError::NotSupportedError));
    }
    let copy = copy_tree(world, alloc, node, deep, Some(document))?;
    Ok(copy)
}

// Returns the node document of a node's copies; none if the first copy is a Document, which is its own.
fn document_of_copies(tree: &Tree<Content>, node: NodeId) -> Option<NodeId>
    requires { HasNode tree.now.forest node }
    ensures { IfSome (entry_in tree.now.forest node) (λ e. result
        ≡ (if is_kind Document e.value.label.kind then None else Some e.value.document)) }
{
    if tree.label(node).kind == Kind::Document {
        None
    } else {
        Some(tree.document_of(node))
    }
}

// Copies a node, with its descendants if the copy is deep, into a document or, without one, into the first copy.
fn copy_tree(
    world: &mut World,
    alloc: Global,
    node: NodeId,
    deep: bool,
    document: Option<NodeId>,
) -> Result<NodeId, AllocError>
    requires whole { IsWhole world.old }
    requires held { HasNode world.old.tree.forest node }
    requires room { world.old.tree.made + size (original deep node world.old.tree.forest)
        ≤ 4294967295 }
    requires document_kind { ForSome document (λ d. is_of_kind Document world.old.tree.forest d
        ≡ true) }
    requires own_document { document ≡ None → is_of_kind Document world.old.tree.forest node
        ≡ true }
    ensures number { IfOk result (λ id. id ≡ world.old.tree.made) }
    ensures copied { OnOk result (Follows world.old world.new (λ w.
        with_copies (unwrap_or document world.old.tree.made) (original deep node w.forest) w)) }
    ensures left { LeavesAll world.old world.new }
    ensures whole { IsWhole world.new }
{
    let top = copy_node(world, alloc, node, document)?;
    if !deep {
        return Ok(top);
    }
    let mut waiting: Vec<Waiting<NodeId>> = Vec::new(alloc);
    wait_for(&mut waiting, world.tree.first(node), top)?;
    while let Some(next) = waiting.pop() {
        let copy = copy_under(world, alloc, next.first, next.place)?;
        wait_for(&mut waiting, world.tree.next(next.first), next.place)?;
        wait_for(&mut waiting, world.tree.first(next.first), copy)?;
    }
    Ok(top)
}

// Copies one node into a document or, without one, into itself.
fn copy_node(
    world: &mut World,
    alloc: Global,
    node: NodeId,
    document: Option<NodeId>,
) -> Result<NodeId, AllocError>
    requires whole { IsWhole world.old }
    requires held { HasNode world.old.tree.forest node }
    requires room { world.old.tree.made < 4294967295 }
    requires document_kind { ForSome document (λ d. is_of_kind Document world.old.tree.forest d
        ≡ true) }
    requires own_document { document ≡ None → is_of_kind Document world.old.tree.forest node
        ≡ true }
    ensures number { IfOk result (λ id. id ≡ world.old.tree.made) }
    ensures copied { IfSome (entry_in world.old.tree.forest node)
        (λ e. OnOk result (Follows world.old world.new
        (made_node (unwrap_or document world.old.tree.made) e.value.label e.value.body))) }
    ensures left { LeavesAll world.old world.new }
    ensures whole { IsWhole world.new }
{
    let label = world.tree.label(node).try_clone(alloc)?;
    let content = world.tree.body(node).try_clone(alloc)?;
    world.make(label, content, document)
}

// Copies one node as a parent's last child, into that parent's node document. Reserves room for blocks of a long list.
fn copy_under(
    world: &mut World,
    alloc: Global,
    node: NodeId,
    parent: NodeId,
) -> Result<NodeId, AllocError>
    requires whole { IsWhole world.old }
    requires held { HasNode world.old.tree.forest node }
    requires parent_held { HasNode world.old.tree.forest parent }
    requires room { world.old.tree.made < 4294967295 }
    requires kinds { MayStand world.old.tree.forest parent node }
    ensures number { IfOk result (λ id. id ≡ world.old.tree.made) }
    ensures copied { IfSome (entry_in world.old.tree.forest parent)
        (λ p. IfSome (entry_in world.old.tree.forest node) (λ e.
        OnOk result (Follows world.old world.new (made_under parent p.value.document e.value)))) }
    ensures failed { OnErr result (LeavesAll world.old world.new) }
    ensures observers { world.new.observers ≡ world.old.observers }
    ensures whole { IsWhole world.new }
{
    reserve_blocks(world, parent)?;
    copy_last(world, alloc, node, parent)
}

// Room for blocks of a parent's children, if these are many. The world stays as it is.
fn reserve_blocks(world: &mut World, parent: NodeId) -> Result<(), AllocError>
    requires { HasNode world.old.tree.forest parent }
    ensures { world.new ≡ world.old }
{
    world.tree.reserve_blocks(parent)
}

// The same, with no room for blocks.
fn copy_last(
    world: &mut World,
    alloc: Global,
    node: NodeId,
    parent: NodeId,
) -> Result<NodeId, AllocError>
    requires whole { IsWhole world.old }
    requires held { HasNode world.old.tree.forest node }
    requires parent_held { HasNode world.old.tree.forest parent }
    requires room { world.old.tree.made < 4294967295 }
    requires kinds { MayStand world.old.tree.forest parent node }
    ensures number { IfOk result (λ id. id ≡ world.old.tree.made) }
    ensures copied { IfSome (entry_in world.old.tree.forest parent)
        (λ p. IfSome (entry_in world.old.tree.forest node) (λ e.
        OnOk result (Follows world.old world.new (made_under parent p.value.document e.value)))) }
    ensures failed { OnErr result (LeavesAll world.old world.new) }
    ensures observers { world.new.observers ≡ world.old.observers }
    ensures whole { IsWhole world.new }
{
    let document = document_in(&world.tree, parent);
    let copy = copy_node(world, alloc, node, Some(document))?;
    world.tree.put(parent, copy, None);
    Ok(copy)
}
