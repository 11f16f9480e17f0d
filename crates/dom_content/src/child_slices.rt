//! Slices of a node's children (DOM Standard, "Trees").

ghost use Rattle.std.specs.Prelude.{◌≡◌, take, drop, IfOk};
ghost use Rattle.dom_model.specs.Forests.Forest.{HasNode, children_of};
ghost use Rattle.dom_model.specs.PlainLists.Lists.{past, up_to};
ghost use Rattle.dom_edit.specs.InsertionPoints.{IsAmong, from_optional, children_ahead};

use dom_edit::Content;
use dom_tree::{NodeId, Tree};
use std::alloc::{AllocError, Global};

// Returns the children of a node from one of them on, up to another.
pub(crate) fn children_between(
    tree: &Tree<Content>,
    alloc: Global,
    parent: NodeId,
    from: Option<NodeId>,
    until: Option<NodeId>,
) -> Result<Vec<NodeId>, AllocError>
    requires held { HasNode tree.now.forest parent }
    requires child { IsAmong from (children_of tree.now.forest parent) }
    ensures { IfOk result (λ list. list.items ≡ children_ahead until
        (from_optional from (children_of tree.now.forest parent))) }
{
    tree.state_law();
    let mut list = Vec::new(alloc);
    for child in tree.children_from(parent, from) {
        if until == Some(child) {
            break;
        }
        list.push(child)?;
    }
    Ok(list)
}

// Returns the children of a node from an offset on.
pub(crate) fn children_from(
    tree: &Tree<Content>,
    alloc: Global,
    parent: NodeId,
    offset: usize,
) -> Result<Vec<NodeId>, AllocError>
    requires { HasNode tree.now.forest parent }
    ensures { IfOk result (λ list. list.items ≡ drop offset (children_of tree.now.forest parent)) }
{
    tree.state_law();
    let from = tree.child_at(parent, offset);
    children_between(tree, alloc, parent, from, None)
}

// Returns the children of a node after one of them; none if it is no child.
pub(crate) fn children_past(
    tree: &Tree<Content>,
    alloc: Global,
    parent: NodeId,
    child: NodeId,
) -> Result<Vec<NodeId>, AllocError>
    requires held { HasNode tree.now.forest parent }
    requires child_held { HasNode tree.now.forest child }
    ensures { IfOk result (λ list. list.items ≡ past child (children_of tree.now.forest parent)) }
{
    tree.state_law();
    if tree.parent(child) == Some(parent) {
        let from = tree.next(child);
        return children_between(tree, alloc, parent, from, None);
    }
    Ok(Vec::new(alloc))
}

// Returns the children of a node before one of them; all if it is no child.
pub(crate) fn children_ahead(
    tree: &Tree<Content>,
    alloc: Global,
    parent: NodeId,
    child: NodeId,
) -> Result<Vec<NodeId>, AllocError>
    requires { HasNode tree.now.forest parent }
    ensures { IfOk result (λ list. list.items ≡ up_to child (children_of tree.now.forest parent)) }
{
    tree.state_law();
    let from = tree.first(parent);
    children_between(tree, alloc, parent, from, Some(child))
}

// Returns the children of a node up to an offset.
pub(crate) fn children_until(
    tree: &Tree<Content>,
    alloc: Global,
    parent: NodeId,
    offset: usize,
) -> Result<Vec<NodeId>, AllocError>
    requires { HasNode tree.now.forest parent }
    ensures { IfOk result (λ list. list.items ≡ take offset (children_of tree.now.forest parent)) }
{
    tree.state_law();
    let from = tree.first(parent);
    let until = tree.child_at(parent, offset);
    children_between(tree, alloc, parent, from, until)
}
