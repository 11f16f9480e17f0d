//! The order of boundary points (DOM Standard, "Boundary points").

ghost use Rattle.std.specs.Prelude.{◌≡◌, IsSome, if◌then◌else◌};
ghost use Rattle.std.specs.declared.cmp.Ordering.TheVariants.{Less, Greater};
ghost use Rattle.dom_model.specs.Forests.Forest.{HasNode, parent_of, root_of};
ghost use Rattle.dom_model.specs.BoundaryPoints.Points.{order_of};
ghost use Rattle.dom_tree.specs.PathsUp.{IsOnWay, AreApart};

use crate::point::Point;
use dom_tree::{Meeting, NodeId, Tree};
use std::cmp::Ordering;

/// Returns the order of two points of one root.
///
/// Takes as many steps as the nodes are deep, and as the paths are apart where they part. A point at offset 0 precedes all points below its node, and
/// needs no index.
pub fn order<X>(tree: &Tree<X>, a: Point, b: Point) -> Ordering
    requires a_held { HasNode tree.now.forest a.node }
    requires b_held { HasNode tree.now.forest b.node }
    requires one_root { root_of tree.now.forest a.node ≡ root_of tree.now.forest b.node }
    ensures { result ≡ order_of tree.now.forest a b }
{
    let met = tree.meeting(a.node, b.node);
    order_where_met(tree, met, a, b)
}

/// Returns the order of two points of one root, and caches the sibling indices that it needs.
///
/// Takes no memory. An index is cached only if it is not found near.
pub fn found_order<X>(tree: &mut Tree<X>, a: Point, b: Point) -> Ordering
    requires a_held { HasNode tree.old.forest a.node }
    requires b_held { HasNode tree.old.forest b.node }
    requires one_root { root_of tree.old.forest a.node ≡ root_of tree.old.forest b.node }
    ensures order { result ≡ order_of tree.old.forest a b }
    ensures unchanged { tree.new ≡ tree.old }
{
    tree.state_law();
    let meeting = tree.meeting(a.node, b.node);
    match (meeting.first, meeting.second) {
        (None, Some(child)) if a.offset != 0 => cache_index(tree, child),
        (Some(child), None) if b.offset != 0 => cache_index(tree, child),
        (Some(first), Some(second)) => cache_order(tree, first, second),
        _ => {}
    }
    order_where_met(tree, meeting, a, b)
}

// Caches the index of a node for the next query.
fn cache_index<X>(tree: &mut Tree<X>, node: NodeId)
    requires { HasNode tree.old.forest node }
    ensures { tree.new ≡ tree.old }
{
    let _ = tree.found_index(node);
}

// Caches which of two children of one parent comes first, for the next query.
fn cache_order<X>(tree: &mut Tree<X>, first: NodeId, second: NodeId)
    requires first_held { HasNode tree.old.forest first }
    requires second_held { HasNode tree.old.forest second }
    requires one_parent { parent_of tree.old.forest first ≡ parent_of tree.old.forest second }
    requires child { IsSome (parent_of tree.old.forest first) }
    ensures { tree.new ≡ tree.old }
{
    let _ = tree.found_comes_before(first, second);
}

// Returns the order of two points, given where their paths to the root meet.
fn order_where_met<X>(tree: &Tree<X>, met: Meeting, a: Point, b: Point) -> Ordering
    requires a_held { HasNode tree.now.forest a.node }
    requires b_held { HasNode tree.now.forest b.node }
    requires first { IsOnWay tree.now.forest a.node met.node met.first }
    requires second { IsOnWay tree.now.forest b.node met.node met.second }
    requires apart { AreApart met.first met.second }
    ensures { result ≡ order_of tree.now.forest a b }
{
    tree.state_law();
    match (met.first, met.second) {
        (None, None) => a.offset.cmp(&b.offset),
        (None, Some(_)) if a.offset == 0 => Ordering::Less,
        (None, Some(child)) => side(a.offset <= tree.index(child)),
        (Some(_), None) if b.offset == 0 => Ordering::Greater,
        (Some(child), None) => side(tree.index(child) < b.offset),
        (Some(first), Some(second)) => side(tree.comes_before(first, second)),
    }
}

// Returns the order of two different points, given whether the first comes first.
fn side(is_ahead: bool) -> Ordering
    ensures { result ≡ (if is_ahead then Less else Greater) }
{
    if is_ahead {
        Ordering::Less
    } else {
        Ordering::Greater
    }
}
