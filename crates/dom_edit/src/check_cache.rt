//! Finding where the element and the doctype of a Document are, before its checks ask for it.

ghost use Rattle.std.specs.Prelude.{◌≡◌, Some};
ghost use Rattle.std.specs.Option.{ForSome};
ghost use Rattle.dom_model.specs.Forests.Forest.{HasNode, parent_of};

use crate::world::World;
use dom_kinds::Kind;
use dom_payload::Content;
use dom_tree::{NodeId, Tree};

// Lists with no more children need no index: a walk over them is short.
const FEW: usize = 128;

// Returns the kind of the child that a Document's check of a node looks for ahead of an insertion point.
fn sought(kind: Kind) -> Option<Kind> {
    match kind {
        Kind::Element | Kind::DocumentFragment => Some(Kind::DocumentType),
        Kind::DocumentType => Some(Kind::Element),
        Kind::Text | Kind::ProcessingInstruction | Kind::Comment | Kind::Document => None,
    }
}

// Makes known whether the child of a kind is ahead of another child, if there is one. The tree's value stays.
fn cache_order(tree: &mut Tree<Content>, document: NodeId, child: NodeId, kind: Kind)
    requires held { HasNode tree.old.forest document }
    requires child { parent_of tree.old.forest child ≡ Some document }
    ensures { tree.new ≡ tree.old }
{
    tree.state_law();
    if let Some(known) = tree.known_child(document, kind) {
        let _ = tree.found_comes_before(known, child);
    }
}

// Makes known what the check of a node asks of a Document with many children: on which side of a child the doctype, or the element, is.
fn cache_sought(tree: &mut Tree<Content>, parent: NodeId, node: NodeId, child: NodeId)
    requires parent_held { HasNode tree.old.forest parent }
    requires node_held { HasNode tree.old.forest node }
    requires child_held { HasNode tree.old.forest child }
    ensures { tree.new ≡ tree.old }
{
    if !tree.is_of_kind(parent, Kind::Document) || tree.count(parent) <= FEW {
        return;
    }
    let Some(kind) = sought(tree.label(node).kind) else {
        return;
    };
    if tree.parent(child) == Some(parent) {
        cache_order(tree, parent, child, kind);
    }
}

impl World {
    /// Makes known what the check of a node before or in the place of a child asks, if its parent is a Document with many children. The world's value stays.
    pub(crate) fn cache_check(&mut self, parent: NodeId, node: NodeId, child: Option<NodeId>)
        requires parent_held { HasNode self.old.tree.forest parent }
        requires node_held { HasNode self.old.tree.forest node }
        requires child_held { ForSome child (λ c. HasNode self.old.tree.forest c) }
        ensures { self.new ≡ self.old }
    {
        if let Some(child) = child {
            cache_sought(&mut self.tree, parent, node, child);
        }
    }
}
