//! Shared code of the tests of trees, points, ranges and traversal: it makes nodes and inserts them.
#![tactic(auto)]

ghost use Rattle.std.specs.Prelude.{◌≡◌};
ghost use Rattle.dom_model.specs.Forests.Forest.{HasNode};
ghost use Rattle.dom_model.specs.Forests.Nodes.{is_of_kind};

use dom_kinds::{Kind, Label};
use dom_tree::{NodeId, Tree};
use std::alloc::AllocError;

/// Makes a node in a document, or as its own document if none is given. Fails if no number is left.
pub fn made<X: Drop>(
    tree: &mut Tree<X>,
    label: Label,
    body: X,
    document: Option<NodeId>,
) -> Result<NodeId, AllocError> {
    if tree.made() >= 4294967295 {
        return Err(AllocError);
    }
    tree.make(label, body, document)
}

// Returns whether a node is of a kind.
fn is_kind<X>(tree: &Tree<X>, id: NodeId, kind: Kind) -> bool
    requires { HasNode tree.now.forest id }
    ensures { result ≡ is_of_kind kind tree.now.forest id }
{
    tree.label(id).kind == kind
}

/// Inserts a root, an Element or a Text, into an Element before one of its children, or as the last. Returns false if the nodes are not such.
pub fn put<X>(tree: &mut Tree<X>, parent: NodeId, child: NodeId, before: Option<NodeId>) -> bool {
    if !(tree.holds(parent) && tree.holds(child)) {
        return false;
    }
    if tree.parent(child).is_some() || tree.is_ancestor(child, parent) {
        return false;
    }
    if !is_kind(tree, parent, Kind::Element) {
        return false;
    }
    if !(is_kind(tree, child, Kind::Element) || is_kind(tree, child, Kind::Text)) {
        return false;
    }
    match before {
        Some(next) => {
            if !tree.holds(next) || tree.parent(next) != Some(parent) {
                return false;
            }
            tree.put(parent, child, Some(next));
        }
        None => tree.put(parent, child, None),
    }
    true
}
