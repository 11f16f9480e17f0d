//! Reading a node and its neighbours without a command (DOM Standard, "Trees").

ghost use Rattle.std.specs.Prelude.{◌≡◌};
ghost use Rattle.dom_model.specs.Forests.Forest.{children_of};
ghost use Rattle.dom_session.specs.Neighbours.{links_in, first_child_in, last_child_in, child_in, child_count_in, laid_over};

use dom_edit::Content;
use dom_kinds::Kind;
use dom_model::OwnError;
use dom_tree::{Children, NodeId, Tree};

/// A node: its kind and node document, its parent, siblings and children, the number of children, and its length.
#[derive(Clone, Copy, Debug, PartialEq, Eq)]
pub struct Neighbours {
    pub kind: Kind,
    pub document: NodeId,
    pub parent: Option<NodeId>,
    pub previous: Option<NodeId>,
    pub next: Option<NodeId>,
    pub first_child: Option<NodeId>,
    pub last_child: Option<NodeId>,
    pub children: usize,
    pub length: usize,
}

/// Returns a node's kind and its neighbours.
pub(crate) fn links_at(tree: &Tree<Content>, node: NodeId) -> Result<Neighbours, OwnError>
    ensures { result ≡ links_in tree.now.forest node }
{
    if !tree.holds(node) {
        return Err(OwnError::NoSuchObject);
    }
    Ok(Neighbours {
        kind: tree.label(node).kind,
        document: tree.document_of(node),
        parent: tree.parent(node),
        previous: tree.prev(node),
        next: tree.next(node),
        first_child: tree.first(node),
        last_child: tree.last(node),
        children: tree.count(node),
        length: tree.length(node),
    })
}

/// Returns the first child of a node, if any.
pub(crate) fn first_child(tree: &Tree<Content>, node: NodeId) -> Result<Option<NodeId>, OwnError>
    ensures { result ≡ first_child_in tree.now.forest node }
{
    if !tree.holds(node) {
        return Err(OwnError::NoSuchObject);
    }
    Ok(tree.first(node))
}

/// Returns the last child of a node, if any.
pub(crate) fn last_child(tree: &Tree<Content>, node: NodeId) -> Result<Option<NodeId>, OwnError>
    ensures { result ≡ last_child_in tree.now.forest node }
{
    if !tree.holds(node) {
        return Err(OwnError::NoSuchObject);
    }
    Ok(tree.last(node))
}

/// Returns the child of a node at an index, if any.
pub(crate) fn child_at(
    tree: &Tree<Content>,
    node: NodeId,
    index: usize,
) -> Result<Option<NodeId>, OwnError>
    ensures { result ≡ child_in index tree.now.forest node }
{
    if !tree.holds(node) {
        return Err(OwnError::NoSuchObject);
    }
    Ok(tree.child_at(node, index))
}

// Writes the numbers of children over the front of a slice, as far as both reach.
fn lay_over(children: Children<'_, Content>, into: &mut [u32])
    ensures { into.new ≡ laid_over children.entry into.old }
{
    let mut at = 0;
    for child in children {
        if at == into.len() {
            return;
        }
        into[at] = child.number();
        at += 1;
    }
}

/// Copies the numbers of a node's children over the front of a slice, as far as there is room, and returns the number of children.
pub(crate) fn copy_children(
    tree: &Tree<Content>,
    node: NodeId,
    into: &mut [u32],
) -> Result<usize, OwnError>
    ensures count { result ≡ child_count_in tree.now.forest node }
    ensures copied { into.new ≡ laid_over (children_of tree.now.forest node) into.old }
{
    if !tree.holds(node) {
        return Err(OwnError::NoSuchObject);
    }
    lay_over(tree.children(node), into);
    Ok(tree.count(node))
}
