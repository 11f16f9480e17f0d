//! The commands that change where nodes stand (DOM Standard, "Interface Node", "Mutation algorithms").

ghost use Rattle.std.specs.Prelude.{◌≡◌, not, ◌||◌, true, IfOk, OnErr};
ghost use Rattle.dom_model.specs.declared.Kind.TheVariants.{Document};
ghost use Rattle.dom_model.specs.Forests.Kinds.{may_be_parent};
ghost use Rattle.dom_model.specs.Forests.Nodes.{is_of_kind};
ghost use Rattle.dom_model.specs.Commands.AnswerTree.{is_child_node};
ghost use Rattle.dom_model.specs.Commands.Command.{InsertBefore, AppendChild, AdoptNode, ReplaceChild, RemoveChild, Remove, ReplaceChildren, Discard};
ghost use Rattle.dom_model.specs.Commands.Guards.{Bounds};
ghost use Rattle.dom_edit.specs.Whole.{IsWhole, IsShown};
ghost use Rattle.dom_commands.specs.Brief.{reply_of};
ghost use Rattle.dom_commands.specs.Views.{editing_view};
ghost use Rattle.dom_session.specs.SessionViews.{IsStep};
ghost use Rattle.dom_session.specs.OutOfMemory.{KeepsWholeWorld};
ghost use Rattle.dom_session.specs.GoingOn.{is_unobserved, is_lone, is_unchanged_in};
ghost use Rattle.dom_session.specs.Refusals.{lacks_given};

use crate::refusals::brief_to;
use dom_commands::{Brief, Editing};
use dom_edit::World;
use dom_kinds::{DomError, Kind, may_be_parent};
use dom_model::OwnError;
use dom_tree::NodeId;
use std::alloc::{AllocError, Global};

// Whether there is such a node, where one is given.
fn holds_given(world: &World, id: &Option<NodeId>) -> bool
    ensures { result ≡ not (lacks_given world.now id.now) }
{
    match id {
        Some(id) => world.tree.holds(*id),
        None => true,
    }
}

// Whether a kind can be removed by itself: a Document and a DocumentFragment have no parent.
fn is_child_node(kind: Kind) -> bool
    ensures { result ≡ is_child_node kind }
{
    !matches!(kind, Kind::Document | Kind::DocumentFragment)
}

/// Inserts a node under a parent, before a child of it or last.
#[inline(always)]
pub(crate) fn insert_before(
    world: &mut World,
    alloc: Global,
    parent: NodeId,
    node: NodeId,
    child: Option<NodeId>,
) -> Result<Brief, AllocError>
    requires shown { IsShown world.old }
    ensures step { IfOk result (λ reply. (b : Bounds) →
        IsStep world.old world.new b (InsertBefore parent node child) (reply_of reply)) }
    ensures left { OnErr result (KeepsWholeWorld world.old world.new) }
    ensures same { (is_unobserved world.old || is_lone world.old node) ≡ true →
        OnErr result (world.new ≡ world.old) }
{
    if !world.tree.holds(parent) || !world.tree.holds(node) || !holds_given(world, &child) {
        return Ok(Brief::Own(OwnError::NoSuchObject));
    }
    match world.insert_before(alloc, parent, node, child) {
        Ok(()) => Ok(Brief::Number(node.number())),
        Err(refusal) => brief_to(refusal),
    }
}

// Appends a node to the children of a parent, whatever it is.
fn append_any(
    world: &mut World,
    alloc: Global,
    parent: NodeId,
    node: NodeId,
) -> Result<Brief, AllocError>
    requires shown { IsShown world.old }
    ensures step { IfOk result (λ reply. (b : Bounds) →
        IsStep world.old world.new b (AppendChild parent node) (reply_of reply)) }
    ensures left { OnErr result (KeepsWholeWorld world.old world.new) }
    ensures same { (is_unobserved world.old || is_lone world.old node) ≡ true →
        OnErr result (world.new ≡ world.old) }
{
    if !world.tree.holds(parent) || !world.tree.holds(node) {
        return Ok(Brief::Own(OwnError::NoSuchObject));
    }
    match world.append(alloc, parent, node) {
        Ok(()) => Ok(Brief::Number(node.number())),
        Err(refusal) => brief_to(refusal),
    }
}

/// Appends a node to the children of a parent. A leaf that was just made is looked up once, and so is its parent.
#[inline(always)]
pub(crate) fn append_child(
    world: &mut World,
    alloc: Global,
    parent: NodeId,
    node: NodeId,
) -> Result<Brief, AllocError>
    requires shown { IsShown world.old }
    ensures step { IfOk result (λ reply. (b : Bounds) →
        IsStep world.old world.new b (AppendChild parent node) (reply_of reply)) }
    ensures left { OnErr result (KeepsWholeWorld world.old world.new) }
    ensures same { (is_unobserved world.old || is_lone world.old node) ≡ true →
        OnErr result (world.new ≡ world.old) }
{
    if world.append_leaf(parent, node) {
        return Ok(Brief::Number(node.number()));
    }
    append_any(world, alloc, parent, node)
}

/// Puts a node in the place of a child of a parent, and answers the child.
pub(crate) fn replace_child(
    world: &mut World,
    alloc: Global,
    parent: NodeId,
    node: NodeId,
    child: NodeId,
) -> Result<Brief, AllocError>
    requires shown { IsShown world.old }
    ensures step { IfOk result (λ reply. (b : Bounds) →
        IsStep world.old world.new b (ReplaceChild parent node child) (reply_of reply)) }
    ensures left { OnErr result (KeepsWholeWorld world.old world.new) }
    ensures same { is_unobserved world.old ≡ true → OnErr result (world.new ≡ world.old) }
{
    if !world.tree.holds(parent) || !world.tree.holds(node) || !world.tree.holds(child) {
        return Ok(Brief::Own(OwnError::NoSuchObject));
    }
    match world.replace(alloc, parent, node, child) {
        Ok(()) => Ok(Brief::Number(child.number())),
        Err(refusal) => brief_to(refusal),
    }
}

/// Takes a child out of a parent.
pub(crate) fn remove_child(
    world: &mut World,
    parent: NodeId,
    child: NodeId,
) -> Result<Brief, AllocError>
    requires shown { IsShown world.old }
    ensures step { IfOk result (λ reply. (b : Bounds) →
        IsStep world.old world.new b (RemoveChild parent child) (reply_of reply)) }
    ensures left { OnErr result (KeepsWholeWorld world.old world.new) }
    ensures unchanged { OnErr result (world.new ≡ world.old) }
{
    if !world.tree.holds(parent) || !world.tree.holds(child) {
        return Ok(Brief::Own(OwnError::NoSuchObject));
    }
    match world.remove_child(parent, child) {
        Ok(()) => Ok(Brief::Number(child.number())),
        Err(refusal) => brief_to(refusal),
    }
}

/// Takes a node out of its parent, where it has one.
pub(crate) fn remove(world: &mut World, node: NodeId) -> Result<Brief, AllocError>
    requires shown { IsShown world.old }
    ensures step { IfOk result (λ reply. (b : Bounds) →
        IsStep world.old world.new b (Remove node) (reply_of reply)) }
    ensures left { OnErr result (KeepsWholeWorld world.old world.new) }
    ensures unchanged { OnErr result (world.new ≡ world.old) }
{
    if !world.tree.holds(node) {
        return Ok(Brief::Own(OwnError::NoSuchObject));
    }
    if !is_child_node(world.tree.label(node).kind) {
        return Ok(Brief::Dom(DomError::TypeError));
    }
    world.remove(node)?;
    Ok(Brief::Nothing)
}

/// Makes a node, or nothing, all that stands under a parent.
pub(crate) fn replace_children(
    world: &mut World,
    alloc: Global,
    parent: NodeId,
    node: Option<NodeId>,
) -> Result<Brief, AllocError>
    requires shown { IsShown world.old }
    ensures step { IfOk result (λ reply. (b : Bounds) →
        IsStep world.old world.new b (ReplaceChildren parent node) (reply_of reply)) }
    ensures left { OnErr result (KeepsWholeWorld world.old world.new) }
    ensures same { is_unobserved world.old ≡ true → OnErr result (world.new ≡ world.old) }
{
    if !world.tree.holds(parent) || !holds_given(world, &node) {
        return Ok(Brief::Own(OwnError::NoSuchObject));
    }
    if !may_be_parent(world.tree.label(parent).kind) {
        return Ok(Brief::Dom(DomError::TypeError));
    }
    match world.replace_children(alloc, parent, node) {
        Ok(()) => Ok(Brief::Nothing),
        Err(refusal) => brief_to(refusal),
    }
}

/// Takes a node out of its parent, into a document.
pub(crate) fn adopt_node(
    world: &mut World,
    document: NodeId,
    node: NodeId,
) -> Result<Brief, AllocError>
    requires shown { IsShown world.old }
    ensures step { IfOk result (λ reply. (b : Bounds) →
        IsStep world.old world.new b (AdoptNode document node) (reply_of reply)) }
    ensures left { OnErr result (KeepsWholeWorld world.old world.new) }
    ensures unchanged { OnErr result (world.new ≡ world.old) }
{
    if !world.tree.holds(document) || !world.tree.holds(node) {
        return Ok(Brief::Own(OwnError::NoSuchObject));
    }
    if !world.tree.is_of_kind(document, Kind::Document) {
        return Ok(Brief::Dom(DomError::TypeError));
    }
    match world.adopt(document, node) {
        Ok(()) => Ok(Brief::Number(node.number())),
        Err(refusal) => brief_to(refusal),
    }
}

/// Lets a node and all that stands under it go, where nothing else names one of them.
pub(crate) fn discard(world: &mut World, top: NodeId) -> Brief
    requires whole { IsWhole world.old }
    ensures step { (b : Bounds) → IsStep world.old world.new b (Discard top) (reply_of result) }
{
    if !world.tree.holds(top) {
        return Brief::Own(OwnError::NoSuchObject);
    }
    world.flush_pending();
    if !world.can_discard(top) {
        return Brief::Own(OwnError::InUse);
    }
    world.discard(top);
    Brief::Nothing
}

/// Answers the commands that change where nodes stand.
#[inline(always)]
pub(crate) fn edit_tree(
    world: &mut World,
    alloc: Global,
    command: Editing,
) -> Result<Brief, AllocError>
    requires shown { IsShown world.old }
    ensures step { IfOk result (λ reply. (b : Bounds) →
        IsStep world.old world.new b (editing_view command) (reply_of reply)) }
    ensures left { OnErr result (KeepsWholeWorld world.old world.new) }
    ensures same { is_unchanged_in world.old (editing_view command) ≡ true →
        OnErr result (world.new ≡ world.old) }
{
    match command {
        Editing::InsertBefore(parent, node, child) => insert_before(
            world, alloc, parent, node, child,
        ),
        Editing::AppendChild(parent, node) => append_child(world, alloc, parent, node),
        Editing::AdoptNode(document, node) => adopt_node(world, document, node),
        Editing::ReplaceChild(parent, node, child) => replace_child(
            world, alloc, parent, node, child,
        ),
        Editing::RemoveChild(parent, child) => remove_child(world, parent, child),
        Editing::Remove(node) => remove(world, node),
        Editing::ReplaceChildren(parent, node) => replace_children(world, alloc, parent, node),
        Editing::Discard(top) => Ok(discard(world, top)),
    }
}
