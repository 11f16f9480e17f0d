//! Equality of trees.

ghost use Rattle.std.specs.Prelude.{◌≡◌, bytes_eq, IfSome};
ghost use Rattle.dom_model.specs.Forests.Attributes.{same_attributes};
ghost use Rattle.dom_model.specs.Forests.Forest.{HasNode, entry_in};
ghost use Rattle.dom_model.specs.Worlds.World.{value_of};
ghost use Rattle.dom_model.specs.DataAndCopies.Clones.{is_equal};
ghost use Rattle.dom_clone.specs.EqualWalks.{met, follows_inside, agree_in, are_alike};

use dom_edit::Content;
use dom_kinds::Kind;
use dom_tree::{NodeId, Tree};

/// Returns whether two nodes have equal kinds, names and contents, and children that are equal in pairs (equals).
pub fn is_equal(tree: &Tree<Content>, node: NodeId, other: NodeId) -> bool
    requires node_held { HasNode tree.now.forest node }
    requires other_held { HasNode tree.now.forest other }
    ensures { result ≡ is_equal tree.now.forest node other }
{
    tree.state_law();
    let mut left = node;
    let mut right = other;
    while are_alike(tree, node, left, other, right) {
        let after_right = tree.next_inside(other, right);
        let Some(next_left) = tree.next_inside(node, left) else {
            return after_right.is_none();
        };
        let Some(next_right) = after_right else {
            return false;
        };
        left = next_left;
        right = next_right;
    }
    false
}

// Returns whether two walks meet equal nodes at equal places.
fn are_alike(tree: &Tree<Content>, node: NodeId, left: NodeId, other: NodeId, right: NodeId) -> bool
    requires left_held { HasNode tree.now.forest left }
    requires right_held { HasNode tree.now.forest right }
    ensures { result ≡ are_alike (met tree.now.forest node left) (met tree.now.forest other right) }
{
    let has_children = tree.first(left).is_some();
    let others_children = tree.first(right).is_some();
    let is_followed = is_followed_inside(tree, node, left);
    let other_followed = is_followed_inside(tree, other, right);
    agree(tree, left, right) && has_children == others_children && is_followed == other_followed
}

// Returns whether siblings follow a node inside a subtree.
fn is_followed_inside(tree: &Tree<Content>, top: NodeId, id: NodeId) -> bool
    requires { HasNode tree.now.forest id }
    ensures { result ≡ follows_inside tree.now.forest top id }
{
    id != top && tree.next(id).is_some()
}

// Returns whether two nodes have equal kinds, names and contents.
fn agree(tree: &Tree<Content>, left: NodeId, right: NodeId) -> bool
    requires left_held { HasNode tree.now.forest left }
    requires right_held { HasNode tree.now.forest right }
    ensures { result ≡ agree_in (value_of (entry_in tree.now.forest left))
        (value_of (entry_in tree.now.forest right)) }
{
    let label = tree.label(left);
    let other = tree.label(right);
    if label.kind != other.kind {
        return false;
    }
    match label.kind {
        Kind::Element => label.name() == other.name() && same_attributes(tree, left, right),
        Kind::Text | Kind::Comment => same_text(tree, left, right),
        Kind::ProcessingInstruction => label.name() == other.name() && same_text(tree, left, right),
        Kind::DocumentType => {
            label.name() == other.name()
                && label.public_id() == other.public_id()
                && label.system_id() == other.system_id()
        }
        Kind::Document | Kind::DocumentFragment => true,
    }
}

// Returns whether two nodes have the same attributes.
fn same_attributes(tree: &Tree<Content>, left: NodeId, right: NodeId) -> bool
    requires left_held { HasNode tree.now.forest left }
    requires right_held { HasNode tree.now.forest right }
    ensures { IfSome (entry_in tree.now.forest left)
        (λ l. IfSome (entry_in tree.now.forest right) (λ r. result
        ≡ same_attributes l.value.body.attributes r.value.body.attributes)) }
{
    let body = tree.body(left);
    let other = tree.body(right);
    body.same_attributes(other)
}

// Returns whether two nodes have the same data.
fn same_text(tree: &Tree<Content>, left: NodeId, right: NodeId) -> bool
    requires left_held { HasNode tree.now.forest left }
    requires right_held { HasNode tree.now.forest right }
    ensures { IfSome (entry_in tree.now.forest left)
        (λ l. IfSome (entry_in tree.now.forest right) (λ r. result
        ≡ bytes_eq l.value.body.text r.value.body.text)) }
{
    let body = tree.body(left);
    let other = tree.body(right);
    body.text() == other.text()
}
