//! Tree order inside a node: what comes before a node there, and what comes after all of it (DOM Standard, "Trees").

ghost use Rattle.std.specs.Prelude.{◌≡◌, true};
ghost use Rattle.std.specs.Option.{ForSome};
ghost use Rattle.dom_model.specs.PlainLists.Lists.{among, before, head_of};
ghost use Rattle.dom_model.specs.Forests.Forest.{HasNode, ancestors, inclusive_descendants};
ghost use Rattle.dom_model.specs.MutationAlgorithms.PreRemoval.{following_outside};
ghost use Rattle.dom_tree.specs.Spots.{node_at};

use dom_tree::{At, NodeId, Tree};

// Returns the node that precedes in tree order, among the inclusive descendants of `top`.
pub(crate) fn previous_inside<'a, X>(node: &At<'a, X>, top: NodeId) -> Option<At<'a, X>>
    requires { among top (ancestors node.now.node node.now.tree.forest) ≡ true }
    ensures tree { ForSome result (λ a. a.tree ≡ node.now.tree) }
    ensures node { node_at result ≡ before node.now.node
        (inclusive_descendants node.now.tree.forest top) }
{
    node.state_law();
    if node.number() == top {
        return None;
    }
    match node.prev() {
        Some(sibling) => Some(sibling.last_inside()),
        None => node.parent(),
    }
}

// Returns the node that follows all inclusive descendants of `node` in tree order, among those of `top`.
pub(crate) fn past_inside<X>(tree: &Tree<X>, top: NodeId, node: NodeId) -> Option<NodeId>
    requires held { HasNode tree.now.forest node }
    requires under { among top (ancestors node tree.now.forest) ≡ true }
    ensures { result ≡ head_of (following_outside node (inclusive_descendants tree.now.forest node)
        (inclusive_descendants tree.now.forest top)) }
{
    tree.state_law();
    let mut here = node;
    while here != top {
        if let Some(next) = tree.next(here) {
            return Some(next);
        }
        here = tree.parent(here).unwrap();
    }
    None
}

// Returns whether `top` has at most `few` descendants, and counts no further. Only running time depends on the answer, so no clause says it.
pub(crate) fn has_few_inside<X>(tree: &Tree<X>, top: NodeId, few: usize) -> bool
    requires { HasNode tree.now.forest top }
{
    tree.any_inside(top, few, |_node| false).is_some()
}
