//! The meeting of the paths from two nodes to their root (DOM Standard, "Trees", "Ranges").

ghost use Rattle.std.specs.Prelude.{◌≡◌, ◌+◌, ◌<◌, length, Some, None};
ghost use Rattle.dom_model.specs.Forests.Forest.{HasNode, ancestors, root_of};
ghost use Rattle.dom_tree.specs.PathsUp.{CameThrough, IsOnWay, AreApart};

use crate::neighbours::{self, named, number_of, place_of};
use crate::node_id::NodeId;
use crate::tree::Tree;
use dom_links::Link;

/// The deepest node on the paths from two nodes to the root, and its child on each path; none for a path that begins there.
#[derive(Clone, Copy, Debug)]
pub struct Meeting {
    pub node: NodeId,
    pub first: Option<NodeId>,
    pub second: Option<NodeId>,
}

/// A node on a path to the root, and its child on the path; none if the path begins there.
#[derive(Clone, Copy)]
struct Step {
    node: NodeId,
    child: Option<NodeId>,
}

/// A node, and its children on the paths from two other nodes.
#[derive(Clone, Copy)]
struct Fork {
    node: NodeId,
    left: NodeId,
    right: NodeId,
}

impl<X> Tree<X> {
    /// Returns where the paths from two nodes of one root meet.
    pub fn meeting(&self, a: NodeId, b: NodeId) -> Meeting
        requires a_held { HasNode self.now.forest a }
        requires b_held { HasNode self.now.forest b }
        requires one_root { root_of self.now.forest a ≡ root_of self.now.forest b }
        ensures first { IsOnWay self.now.forest a result.node result.first }
        ensures second { IsOnWay self.now.forest b result.node result.second }
        ensures apart { AreApart result.first result.second }
    {
        self.state_law();
        if a == b {
            return Meeting {
                node: a,
                first: None,
                second: None,
            };
        }
        let (a_depth, b_depth) = (self.depth(a), self.depth(b));
        let first = self.climbed(a, a_depth.saturating_sub(b_depth));
        let second = self.climbed(b, b_depth.saturating_sub(a_depth));
        if first.node == second.node {
            return Meeting {
                node: first.node,
                first: first.child,
                second: second.child,
            };
        }
        let fork = self.fork(first.node, second.node);
        Meeting {
            node: fork.node,
            first: Some(fork.left),
            second: Some(fork.right),
        }
    }

    // Returns the number of ancestors of a node.
    fn depth(&self, id: NodeId) -> u64
        requires { HasNode self.now.forest id }
        ensures { result + 1 ≡ length (ancestors id self.now.forest) }
    {
        self.state_law();
        self.links.state_law();
        let mut here = place_of(&self.links, &self.table, id);
        for depth in 0..self.live {
            match neighbours::parent(&self.links, here) {
                Some(parent) => here = parent,
                None => return depth,
            }
        }
        self.live
    }

    // Returns the ancestor that is `steps` above a node, with its child on the path.
    fn climbed(&self, id: NodeId, steps: u64) -> Step
        requires held { HasNode self.now.forest id }
        requires within { steps < length (ancestors id self.now.forest) }
        ensures way { IsOnWay self.now.forest id result.node result.child }
        ensures height { length (ancestors result.node self.now.forest) + steps
            ≡ length (ancestors id self.now.forest) }
        ensures start { steps ≡ 0 → result.child ≡ None }
    {
        self.state_law();
        self.links.state_law();
        let mut here = place_of(&self.links, &self.table, id);
        let mut child = Link::none();
        for _passed in 0..steps {
            let above = neighbours::parent(&self.links, here).unwrap();
            child = Link::to(here);
            here = above;
        }
        Step {
            node: number_of(&self.links, here),
            child: named(&self.links, child),
        }
    }

    // Returns where the paths from two different nodes of the same depth meet.
    fn fork(&self, a: NodeId, b: NodeId) -> Fork
        requires a_held { HasNode self.now.forest a }
        requires b_held { HasNode self.now.forest b }
        requires apart { ¬ (a ≡ b) }
        requires one_root { root_of self.now.forest a ≡ root_of self.now.forest b }
        requires one_depth { length (ancestors a self.now.forest)
            ≡ length (ancestors b self.now.forest) }
        ensures left { CameThrough self.now.forest a result.node (Some result.left) }
        ensures right { CameThrough self.now.forest b result.node (Some result.right) }
        ensures apart { ¬ (result.left ≡ result.right) }
    {
        self.state_law();
        self.links.state_law();
        let mut left = place_of(&self.links, &self.table, a);
        let mut right = place_of(&self.links, &self.table, b);
        loop {
            let left_parent = neighbours::parent(&self.links, left).unwrap();
            let right_parent = neighbours::parent(&self.links, right).unwrap();
            if self.links.slot(left_parent) == self.links.slot(right_parent) {
                return Fork {
                    node: number_of(&self.links, left_parent),
                    left: number_of(&self.links, left),
                    right: number_of(&self.links, right),
                };
            }
            left = left_parent;
            right = right_parent;
        }
    }
}
