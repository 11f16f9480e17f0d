//! How a tree walker's walk goes through children and siblings (DOM Standard, "Interface TreeWalker": traverse children, traverse siblings, `nextNode`).

use crate::judge::Judge;
use dom_model::Verdict;
use dom_tree::{At, NodeId};

// From which end a walk comes to a list of children.
#[derive(Clone, Copy, PartialEq, Eq)]
pub enum Side {
    First,
    Last,
}

// How far up a walk goes: not past the root, not to the root or the current node, or not to the root or an accepted node.
#[derive(Clone, Copy, PartialEq, Eq)]
pub enum Limit {
    Root,
    Current,
    Accepted,
}

// The root and the current node of a walker, and the way of one of its moves.
#[derive(Drop)]
pub struct SiblingWalk {
    pub root: NodeId,
    pub current: NodeId,
    pub side: Side,
    pub limit: Limit,
}

impl Side {
    ghost use Rattle.std.specs.Prelude.{◌≡◌};
    ghost use Rattle.std.specs.Option.{ForSome};
    ghost use Rattle.dom_tree.specs.Spots.{node_at};
    ghost use Rattle.dom_traverse.specs.SiblingWalks.{child_on, sibling_on};

    // The child that comes first from this end.
    pub fn child<'a, X>(self, node: &At<'a, X>) -> Option<At<'a, X>>
        ensures tree { ForSome result (λ a. a.tree ≡ node.now.tree) }
        ensures node { node_at result ≡ child_on self node.now.tree.forest node.now.node }
    {
        match self {
            Side::First => node.first(),
            Side::Last => node.last(),
        }
    }

    // The sibling that comes after a node from this end.
    pub fn sibling<'a, X>(self, node: &At<'a, X>) -> Option<At<'a, X>>
        ensures tree { ForSome result (λ a. a.tree ≡ node.now.tree) }
        ensures node { node_at result ≡ sibling_on self node.now.tree.forest node.now.node }
    {
        match self {
            Side::First => node.next(),
            Side::Last => node.prev(),
        }
    }
}

impl SiblingWalk {
    ghost use Rattle.std.specs.Prelude.{◌≡◌, ◌≢◌, None};
    ghost use Rattle.std.specs.Option.{ForSome};
    ghost use Rattle.dom_model.specs.declared.Verdict.TheVariants.{Accept};
    ghost use Rattle.dom_model.specs.Traversal.Filters.{verdict_on};
    ghost use Rattle.dom_model.specs.Traversal.WalkSteps.{at, ended, at_or};
    ghost use Rattle.dom_tree.specs.Spots.{node_at};
    ghost use Rattle.dom_traverse.specs.SiblingWalks.{blocks, stops, child_on, way_into, past_in, Ending, LeadsTo, GoesOnTo, found_from};

    // Whether the walk does not go past the node.
    fn is_over<X>(&self, node: &At<'_, X>) -> bool
        ensures { result ≡ blocks self.now.limit self.now.root node.now.node }
    {
        self.limit == Limit::Root && node.number() == self.root
    }

    // Whether the walk does not go up past the node from what is under it.
    fn stops_at<X>(&self, filter: &Judge, node: &At<'_, X>) -> bool
        ensures { result ≡ stops self.now.limit node.now.tree.forest filter.now self.now.root
            self.now.current node.now.node }
    {
        let number = node.number();
        match self.limit {
            Limit::Root => false,
            Limit::Current => number == self.root || number == self.current,
            Limit::Accepted => number == self.root || filter.accepts(node),
        }
    }

    // The sibling that follows a node, or the nearest of its ancestors that has one, within the limit.
    pub fn past<'a, X>(&self, filter: &Judge, node: At<'a, X>) -> Option<At<'a, X>>
        requires { Ending node.tree.forest filter.now self.now
            (past_in node.tree.forest filter.now self.now node.node) }
        ensures tree { ForSome result (λ a. a.tree ≡ node.entry.tree) }
        ensures leads { LeadsTo node.entry.tree.forest filter.now self.now
            (past_in node.entry.tree.forest filter.now self.now node.entry.node)
            (at_or (node_at result) (ended None)) }
    {
        let mut here = node;
        while !self.is_over(&here) {
            if let Some(sibling) = self.side.sibling(&here) {
                return Some(sibling);
            }
            here = here.parent()?;
            if self.stops_at(filter, &here) {
                return None;
            }
        }
        None
    }

    // The child by which the walk goes into a node, where there is one and the node is skipped.
    fn way_into<'a, X>(&self, verdict: Verdict, node: &At<'a, X>) -> Option<At<'a, X>>
        ensures tree { ForSome result (λ a. a.tree ≡ node.now.tree) }
        ensures node { node_at result ≡ way_into verdict
            (child_on self.now.side node.now.tree.forest node.now.node) }
    {
        match verdict {
            Verdict::Skip => self.side.child(node),
            Verdict::Accept | Verdict::Reject => None,
        }
    }

    // From a node that is not accepted, into it or else past it.
    fn onward<'a, X>(&self, filter: &Judge, verdict: Verdict, node: At<'a, X>) -> Option<At<'a, X>>
        requires verdict { verdict ≡ verdict_on node.tree.forest filter.now node.node }
        requires not_accepted { verdict ≢ Accept }
        requires ends { Ending node.tree.forest filter.now self.now (at node.node) }
        ensures tree { ForSome result (λ a. a.tree ≡ node.entry.tree) }
        ensures leads { GoesOnTo node.entry.tree.forest filter.now self.now (at node.entry.node)
            (at_or (node_at result) (ended None)) }
    {
        if let Some(child) = self.way_into(verdict, &node) {
            return Some(child);
        }
        self.past(filter, node)
    }

    // The first accepted node that the walk comes to, from a node on.
    pub fn run<X>(&self, filter: &Judge, node: At<'_, X>) -> Option<NodeId>
        requires { Ending node.tree.forest filter.now self.now (at node.node) }
        ensures { result ≡ found_from node.entry.tree.forest filter.now self.now
            (at node.entry.node) }
    {
        let mut here = node;
        loop {
            let verdict = filter.judge(&here);
            if verdict == Verdict::Accept {
                return Some(here.number());
            }
            here = self.onward(filter, verdict, here)?;
        }
    }
}
