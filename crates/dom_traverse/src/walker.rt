//! One tree walker (DOM Standard, "Interface TreeWalker").

ghost use Rattle.std.specs.Prelude.{◌≡◌};
ghost use Rattle.dom_model.specs.Traversal.Walks.{walk_found, walker_moved};
ghost use Rattle.dom_traverse.specs.Items.{StandsThere};

use crate::judge::Judge;
use crate::positioned::Positioned;
use crate::sibling_walk::Side;
use crate::walker_moves;
use dom_model::Move;
use dom_tree::{NodeId, Tree};
use std::marker::Model;

// A root, a current node, which may be anywhere, and a filter.
#[derive(Drop)]
pub struct TreeWalker {
    pub root: NodeId,
    pub current: NodeId,
    pub filter: Judge,
}

impl Model for TreeWalker {
    ghost use Rattle.dom_model.specs.Worlds.World.{Walker};

    ghost Value = { Walker };

    ghost view = { λ w. record { root = w.root; current = w.current; filter = w.filter } };
}

impl Positioned for TreeWalker {
    ghost root_of = { λ w. w.root };

    ghost node_of = { λ w. w.current };

    fn root(&self) -> NodeId {
        self.root
    }

    fn node(&self) -> NodeId {
        self.current
    }
}

impl TreeWalker {
    // Moves to the node that a move finds, if there is one.
    pub fn step<X>(&mut self, tree: &Tree<X>, direction: Move) -> Option<NodeId>
        requires { StandsThere tree.now.forest self.old }
        ensures found { result ≡ walk_found direction tree.now.forest self.old }
        ensures moved { self.new ≡ walker_moved (walk_found direction tree.now.forest self.old)
            self.old }
    {
        let found = self.found(tree, direction)?;
        self.current = found;
        Some(found)
    }

    // Returns the node that a move finds.
    fn found<X>(&self, tree: &Tree<X>, direction: Move) -> Option<NodeId>
        requires { StandsThere tree.now.forest self.now }
        ensures { result ≡ walk_found direction tree.now.forest self.now }
    {
        tree.state_law();
        let filter = &self.filter;
        let (root, current) = (self.root, self.current);
        match direction {
            Move::ParentNode => walker_moves::parent_node(tree, filter, root, current),
            Move::FirstChild => walker_moves::child(tree, filter, root, current, Side::First),
            Move::LastChild => walker_moves::child(tree, filter, root, current, Side::Last),
            Move::PreviousSibling => walker_moves::sibling(tree, filter, root, current, Side::Last),
            Move::NextSibling => walker_moves::sibling(tree, filter, root, current, Side::First),
            Move::PreviousNode => walker_moves::previous_node(tree, filter, root, current),
            Move::NextNode => walker_moves::next_node(tree, filter, root, current),
        }
    }
}
