//! The seven moves of a tree walker, step by step (DOM Standard, "Interface TreeWalker").

ghost use Rattle.std.specs.Prelude.{◌≡◌};
ghost use Rattle.dom_model.specs.Forests.Forest.{HasNode};
ghost use Rattle.dom_model.specs.Traversal.WalkSteps.{parent_by_steps, next_by_steps, previous_by_steps};
ghost use Rattle.dom_model.specs.Traversal.Walks.{found_by_steps};
ghost use Rattle.dom_traverse.specs.SiblingWalks.{child_move, sibling_move};
ghost use Rattle.dom_traverse.specs.Ends.{Descends, IsEnd};

use crate::judge::Judge;
use crate::sibling_walk::{Limit, SiblingWalk, Side};
use dom_tree::{At, NodeId, Tree};

// `parentNode()`.
pub(crate) fn parent_node<X>(
    tree: &Tree<X>,
    filter: &Judge,
    root: NodeId,
    current: NodeId,
) -> Option<NodeId>
    requires { HasNode tree.now.forest current }
    ensures { result ≡ parent_by_steps tree.now.forest filter.now root current }
{
    tree.state_law();
    let mut here = tree.at(current);
    while here.number() != root {
        here = here.parent()?;
        if filter.accepts(&here) {
            return Some(here.number());
        }
    }
    None
}

// `firstChild()` or `lastChild()`.
pub(crate) fn child<X>(
    tree: &Tree<X>,
    filter: &Judge,
    root: NodeId,
    current: NodeId,
    side: Side,
) -> Option<NodeId>
    requires { HasNode tree.now.forest current }
    ensures { result ≡ found_by_steps (child_move side) tree.now.forest filter.now root current }
{
    tree.state_law();
    let course = SiblingWalk {
        root,
        current,
        side,
        limit: Limit::Current,
    };
    let child = side.child(&tree.at(current))?;
    course.run(filter, child)
}

// `nextSibling()` or `previousSibling()`.
pub(crate) fn sibling<X>(
    tree: &Tree<X>,
    filter: &Judge,
    root: NodeId,
    current: NodeId,
    side: Side,
) -> Option<NodeId>
    requires { HasNode tree.now.forest current }
    ensures { result ≡ found_by_steps (sibling_move side) tree.now.forest filter.now root current }
{
    tree.state_law();
    if current == root {
        return None;
    }
    let course = SiblingWalk {
        root,
        current,
        side,
        limit: Limit::Accepted,
    };
    let sibling = course.past(filter, tree.at(current))?;
    course.run(filter, sibling)
}

// `nextNode()`.
pub(crate) fn next_node<X>(
    tree: &Tree<X>,
    filter: &Judge,
    root: NodeId,
    current: NodeId,
) -> Option<NodeId>
    requires { HasNode tree.now.forest current }
    ensures { result ≡ next_by_steps tree.now.forest filter.now root current }
{
    tree.state_law();
    let course = SiblingWalk {
        root,
        current,
        side: Side::First,
        limit: Limit::Root,
    };
    let here = tree.at(current);
    if let Some(child) = here.first() {
        return course.run(filter, child);
    }
    let next = course.past(filter, here)?;
    course.run(filter, next)
}

// Descends through last children, as long as no node is rejected.
fn end_of<'a, X>(filter: &Judge, node: At<'a, X>) -> At<'a, X>
    ensures tree { result.tree ≡ node.entry.tree }
    ensures descends { Descends node.entry.tree.forest filter.now node.entry.node result.node }
    ensures end { IsEnd node.entry.tree.forest filter.now result.node }
{
    node.state_law();
    let mut here = node;
    while !filter.rejects(&here) {
        match here.last() {
            Some(last) => here = last,
            None => return here,
        }
    }
    here
}

// Runs `previousNode()`. The root ends the walk if it is reached from below, or has no previous sibling; from behind it is passed.
pub(crate) fn previous_node<X>(
    tree: &Tree<X>,
    filter: &Judge,
    root: NodeId,
    current: NodeId,
) -> Option<NodeId>
    requires { HasNode tree.now.forest current }
    ensures { result ≡ previous_by_steps tree.now.forest filter.now root current }
{
    tree.state_law();
    if current == root {
        return None;
    }
    let mut here = tree.at(current);
    loop {
        if let Some(sibling) = here.prev() {
            here = end_of(filter, sibling);
            if filter.accepts(&here) {
                return Some(here.number());
            }
        } else {
            if here.number() == root {
                return None;
            }
            here = here.parent()?;
            if filter.accepts(&here) {
                return Some(here.number());
            }
            if here.number() == root {
                return None;
            }
        }
    }
}
