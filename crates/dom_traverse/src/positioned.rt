//! The trait of items with a position.

ghost use Rattle.std.specs.Prelude.{◌≡◌, ℕ};
ghost use Rattle.std.specs.List.{list_any};
ghost use Rattle.dom_model.specs.PlainLists.Lists.{among};
ghost use Rattle.dom_model.specs.Forests.Forest.{HasNode, inclusive_descendants};
ghost use Rattle.dom_traverse.specs.NamedNodes.{named_by};

use dom_tree::{NodeId, Tree};

// An item with a fixed root and a position.
pub(crate) trait Positioned: Drop {
    // the root of an item
    ghost root_of: { Self → ℕ };

    // the position of an item
    ghost node_of: { Self → ℕ };

    // Returns the root.
    fn root(&self) -> NodeId
        ensures { result ≡ root_of self.now };

    // Returns the position.
    fn node(&self) -> NodeId
        ensures { result ≡ node_of self.now };
}

// Returns whether the root or position of an item is an inclusive descendant of a node.
pub(crate) fn stands_in<T: Positioned, X>(item: &T, tree: &Tree<X>, top: NodeId) -> bool
    requires { HasNode tree.now.forest top }
    ensures { result ≡ list_any (λ m. among m (inclusive_descendants tree.now.forest top))
        (named_by T.root_of T.node_of item.now) }
{
    tree.is_inside(top, item.root()) || tree.is_inside(top, item.node())
}
