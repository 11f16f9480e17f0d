//! The common ancestor of two nodes (DOM Standard, "Ranges").

ghost use Rattle.std.specs.Prelude.{◌≡◌};
ghost use Rattle.dom_model.specs.Forests.Forest.{HasNode, root_of};
ghost use Rattle.dom_model.specs.RangesAndContents.Ranges.{common_ancestor};

use dom_tree::{NodeId, Tree};

/// Returns the deepest inclusive ancestor of both nodes.
pub fn common<X>(tree: &Tree<X>, a: NodeId, b: NodeId) -> NodeId
    requires a_held { HasNode tree.now.forest a }
    requires b_held { HasNode tree.now.forest b }
    requires one_root { root_of tree.now.forest a ≡ root_of tree.now.forest b }
    ensures { result ≡ common_ancestor tree.now.forest a b }
{
    tree.state_law();
    tree.meeting(a, b).node
}
