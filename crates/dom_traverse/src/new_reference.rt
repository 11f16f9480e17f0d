//! Where the references inside a node go before it is removed: what was found for one iterator serves the others of its root.

ghost use Rattle.std.specs.Prelude.{◌≡◌, ◌==◌, not, ◌&&◌};
ghost use Rattle.std.specs.Option.{ForSome};
ghost use Rattle.dom_model.specs.PlainLists.Lists.{among};
ghost use Rattle.dom_model.specs.Forests.Forest.{HasNode, inclusive_descendants};
ghost use Rattle.dom_tree.specs.Spots.{node_at};
ghost use Rattle.dom_traverse.specs.NewReferences.{IsExit};

use crate::preceding_and_following::{past_inside, previous_inside};
use dom_tree::{At, NodeId, Tree};

// The nodes to which references inside a node go that is to be removed, in iterators of one root: on, or else back.
#[derive(Clone, Copy, Drop)]
pub(crate) struct NewReference {
    root: NodeId,
    // whether the root loses the node
    pub(crate) loses: bool,
    pub(crate) following: Option<NodeId>,
    pub(crate) preceding: Option<NodeId>,
}

// Whether a root loses a node that goes: it stands over it.
fn loses<X>(tree: &Tree<X>, root: NodeId, node: NodeId) -> bool
    requires { HasNode tree.now.forest node }
    ensures { result ≡ (not (node == root) && among node
        (inclusive_descendants tree.now.forest root)) }
{
    tree.state_law();
    node != root && tree.is_ancestor(root, node)
}

// The number of a node, where there is one.
fn number<X>(node: Option<At<'_, X>>) -> Option<NodeId>
    ensures { result ≡ node_at node.entry }
{
    match node {
        Some(node) => Some(node.number()),
        None => None,
    }
}

impl NewReference {
    // What is found for a root.
    fn of<X>(tree: &Tree<X>, node: NodeId, root: NodeId) -> NewReference
        requires { HasNode tree.now.forest node }
        ensures root { result.root ≡ root }
        ensures exit { IsExit tree.now.forest node result }
    {
        if !loses(tree, root, node) {
            return NewReference {
                root,
                loses: false,
                following: None,
                preceding: None,
            };
        }
        tree.state_law();
        let following = past_inside(tree, root, node);
        let here = tree.at(node);
        let preceding = previous_inside(&here, root);
        NewReference {
            root,
            loses: true,
            following,
            preceding: number(preceding),
        }
    }

    // The same: what was found last, where that was for this root.
    pub(crate) fn for_root<X>(
        last: Option<NewReference>,
        tree: &Tree<X>,
        node: NodeId,
        root: NodeId,
    ) -> NewReference
        requires held { HasNode tree.now.forest node }
        requires found { ForSome last (IsExit tree.now.forest node) }
        ensures root { result.root ≡ root }
        ensures exit { IsExit tree.now.forest node result }
    {
        if let Some(exit) = last {
            if exit.root == root {
                return exit;
            }
        }
        NewReference::of(tree, node, root)
    }
}
