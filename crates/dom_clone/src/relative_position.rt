//! Relative positions of two nodes.

ghost use Rattle.std.specs.Prelude.{◌≡◌, nat_lt, if◌then◌else◌};
ghost use Rattle.dom_model.specs.Forests.Forest.{HasNode};
ghost use Rattle.dom_model.specs.DataAndCopies.Clones.{contains, position};

use dom_edit::Content;
use dom_tree::{NodeId, Tree};

/// Returns whether the other is an inclusive descendant of the node (contains).
pub fn contains(tree: &Tree<Content>, node: NodeId, other: NodeId) -> bool
    ensures { result ≡ contains tree.now.forest node other }
{
    tree.holds(other) && tree.is_ancestor(node, other)
}

// Returns the bits of a position.
const DISCONNECTED: u16 = 1;

const PRECEDING: u16 = 2;

const FOLLOWING: u16 = 4;

const CONTAINS: u16 = 8;

const CONTAINED_BY: u16 = 16;

const IMPLEMENTATION_SPECIFIC: u16 = 32;

/// Returns the position of the other relative to the node: the bits of compareDocumentPosition, 0 for the node itself.
///
/// Of two trees, the one whose root has the smaller number comes first.
#[tactic(auto, using(crate::proofs::PositionLemmas::ahead_place))]
pub fn position(tree: &Tree<Content>, node: NodeId, other: NodeId) -> u16
    requires node_held { HasNode tree.now.forest node }
    requires other_held { HasNode tree.now.forest other }
    ensures { result ≡ position tree.now.forest node other }
{
    if node == other {
        return 0;
    }
    let root = tree.root(node);
    let other_root = tree.root(other);
    if root != other_root {
        return position_apart(root, other_root);
    }
    if tree.is_ancestor(other, node) {
        return CONTAINS | PRECEDING;
    }
    if tree.is_ancestor(node, other) {
        return CONTAINED_BY | FOLLOWING;
    }
    if tree.precedes(other, node) {
        PRECEDING
    } else {
        FOLLOWING
    }
}

// Returns the position of a node in another tree, by the roots.
fn position_apart(root: NodeId, other_root: NodeId) -> u16
    ensures { result ≡ (if nat_lt other_root root then 35 else 37) }
{
    if other_root.number() < root.number() {
        DISCONNECTED | IMPLEMENTATION_SPECIFIC | PRECEDING
    } else {
        DISCONNECTED | IMPLEMENTATION_SPECIFIC | FOLLOWING
    }
}
