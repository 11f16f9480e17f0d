//! Whether items refer to a node inside a subtree, by their positions or by their roots, which never change.

ghost use Rattle.std.specs.Prelude.{◌≡◌, ℕ, List, ◌+◌, ◌-◌, ◌<◌, IfSome};
ghost use Rattle.std.specs.List.{list_any};
ghost use Rattle.dom_model.specs.PlainLists.Lists.{among};
ghost use Rattle.dom_model.specs.Forests.Forest.{HasNode, inclusive_descendants};
ghost use Rattle.dom_traverse.specs.NamedNodes.{AreNames, count_at, is_named, Recounts};
ghost use Rattle.indexmap.specs.IndexMap.{spare};

use crate::positions_by_node::PositionsByNode;
use dom_tree::{NodeId, Tree};
use indexmap::IndexMap;

// Counts one item more with a node as its root, within reserved room.
pub(crate) fn name(roots: &mut IndexMap<u32, u32>, node: NodeId)
    requires room { 0 < spare roots.old }
    requires few { count_at roots.old node < 4294967295 }
    ensures { Recounts roots.old roots.new node (count_at roots.old node + 1) }
{
    let number = node.number();
    let count = roots.get(&number).copied().unwrap_or(0);
    roots.insert(number, count + 1).unwrap();
}

// Counts one item less.
pub(crate) fn unname(roots: &mut IndexMap<u32, u32>, node: NodeId)
    requires { 0 < count_at roots.old node }
    ensures { Recounts roots.old roots.new node (count_at roots.old node - 1) }
{
    let number = node.number();
    let count = roots.get(&number).copied().unwrap();
    if count > 1 {
        roots.insert(number, count - 1).unwrap();
    } else {
        roots.swap_remove(&number);
    }
}

// Returns whether an item refers to a node.
fn names(roots: &IndexMap<u32, u32>, standing: &PositionsByNode, node: NodeId) -> bool
    ensures { result ≡ is_named roots.now standing.now node }
{
    roots.contains_key(&node.number()) || standing.names(node)
}

// Returns whether an item refers to a node inside `top`, or nothing if there are too many nodes to visit.
pub(crate) fn names_inside<X>(
    roots: &IndexMap<u32, u32>,
    standing: &PositionsByNode,
    tree: &Tree<X>,
    top: NodeId,
    steps: usize,
) -> Option<bool>
    requires { HasNode tree.now.forest top }
    ensures { (ns : List ℕ) → AreNames roots.now standing.now ns →
        IfSome result (λ b. b ≡ list_any (λ m. among m (inclusive_descendants tree.now.forest top))
        ns) }
{
    tree.any_inside(top, steps, |node| names(roots, standing, node))
}
