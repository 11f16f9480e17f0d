//! Queries on nodes that several crates need.

ghost use Rattle.std.specs.Prelude.{◌≡◌, true};
ghost use Rattle.dom_model.specs.declared.Kind.TheVariants.{Document};
ghost use Rattle.dom_model.specs.Forests.Forest.{HasNode, entry_in};
ghost use Rattle.dom_model.specs.Forests.Nodes.{is_of_kind};
ghost use Rattle.dom_model.specs.MutationAlgorithms.Editing.{document_in};
ghost use Rattle.dom_model.specs.DataAndCopies.Data.{content_in};
ghost use Rattle.dom_model.specs.Soundness.Owners.{HasOwners};
ghost use Rattle.dom_edit.specs.Insertion.{reference_in};

use dom_payload::Content;
use dom_tree::{NodeId, Tree};

/// Returns the reference child of an insertion: the child, or the node's next sibling if the child is the node itself; none to append.
pub fn reference_child(tree: &Tree<Content>, node: NodeId, child: Option<NodeId>) -> Option<NodeId>
    requires { HasNode tree.now.forest node }
    ensures { result ≡ reference_in tree.now.forest node child }
{
    match child {
        Some(reference) if reference == node => tree.next(node),
        _ => child,
    }
}

/// Returns the node document of a node. Requires only a part of a whole world.
pub fn document_in(tree: &Tree<Content>, node: NodeId) -> NodeId
    requires held { HasNode tree.now.forest node }
    requires owners { HasOwners tree.now.forest }
    ensures document { result ≡ document_in (entry_in tree.now.forest node) }
    ensures kind { is_of_kind Document tree.now.forest result ≡ true }
{
    tree.document_of(node)
}

/// Borrows the data of a node from the tree.
pub fn data_in(tree: &Tree<Content>, node: NodeId) -> &[u16]
    requires held { HasNode tree.now.forest node }
    ensures { result.now ≡ (content_in (entry_in tree.now.forest node)).text }
{
    tree.body(node).text()
}
