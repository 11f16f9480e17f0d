//! Queries on boundary points and on the points beside a node (DOM Standard, "Boundary points", "Interface Range").

ghost use Rattle.std.specs.Prelude.{◌≡◌, ◌+◌, Some, option_map};
ghost use Rattle.dom_model.specs.Forests.Forest.{HasNode, index_of, parent_of, root_of};
ghost use Rattle.dom_model.specs.Forests.Nodes as nodes;
ghost use Rattle.dom_model.specs.RangesAndContents.Ranges as ranges;
ghost use Rattle.dom_model.specs.RangesAndContents.Ranges.{check_point, around};
ghost use Rattle.dom_point.specs.Refusals.{result_of_check};

use crate::point::Point;
use crate::point_order::{found_order, order};
use dom_kinds::{DomError, Kind};
use dom_tree::{Body, NodeId, Tree};
use std::cmp::Ordering;

/// Returns whether two nodes have one root.
pub fn same_root<X>(tree: &Tree<X>, a: NodeId, b: NodeId) -> bool
    requires a_held { HasNode tree.now.forest a }
    requires b_held { HasNode tree.now.forest b }
    ensures { result ≡ nodes.same_root tree.now.forest a b }
{
    tree.root(a) == tree.root(b)
}

/// Returns whether the first of two points of one root comes before the second.
pub fn is_before<X>(tree: &Tree<X>, a: Point, b: Point) -> bool
    requires a_held { HasNode tree.now.forest a.node }
    requires b_held { HasNode tree.now.forest b.node }
    requires one_root { root_of tree.now.forest a.node ≡ root_of tree.now.forest b.node }
    ensures { result ≡ ranges.is_before tree.now.forest a b }
{
    match order(tree, a, b) {
        Ordering::Less => true,
        Ordering::Equal | Ordering::Greater => false,
    }
}

/// Returns whether the first of two points of one root comes before the second, and caches indices as [`found_order`] does.
pub fn found_before<X>(tree: &mut Tree<X>, a: Point, b: Point) -> bool
    requires a_held { HasNode tree.old.forest a.node }
    requires b_held { HasNode tree.old.forest b.node }
    requires one_root { root_of tree.old.forest a.node ≡ root_of tree.old.forest b.node }
    ensures before { result ≡ ranges.is_before tree.old.forest a b }
    ensures unchanged { tree.new ≡ tree.old }
{
    found_order(tree, a, b) == Ordering::Less
}

/// Checks a boundary point: refuses a doctype, and an offset past the node's length.
pub fn checked_point<X: Body>(tree: &Tree<X>, node: NodeId, offset: usize) -> Result<(), DomError>
    requires { HasNode tree.now.forest node }
    ensures { result ≡ result_of_check (check_point X.length tree.now.forest
        (record { node = node; offset = offset })) }
{
    if tree.is_of_kind(node, Kind::DocumentType) {
        return Err(DomError::InvalidNodeTypeError);
    }
    if tree.length(node) < offset {
        return Err(DomError::IndexSizeError);
    }
    Ok(())
}

/// Returns the point before a node in its parent; none for a root.
pub fn point_before<X>(tree: &Tree<X>, node: NodeId) -> Option<Point>
    requires { HasNode tree.now.forest node }
    ensures { result ≡ ranges.point_before tree.now.forest node }
{
    let parent = tree.parent(node)?;
    Some(Point {
        node: parent,
        offset: tree.index(node),
    })
}

/// Returns the point after a node in its parent; none for a root.
pub fn point_after<X>(tree: &Tree<X>, node: NodeId) -> Option<Point>
    requires { HasNode tree.now.forest node }
    ensures { result ≡ ranges.point_after tree.now.forest node }
{
    let (_, after) = points_around(tree, node)?;
    Some(after)
}

/// Returns the points before and after a node in its parent; none for a root.
pub fn points_around<X>(tree: &Tree<X>, node: NodeId) -> Option<(Point, Point)>
    requires { HasNode tree.now.forest node }
    ensures { option_map (λ ends. record { start = ends.0; end = ends.1 }) result
        ≡ around tree.now.forest node }
{
    let parent = tree.parent(node)?;
    Some(around_child(tree, parent, node, tree.index(node)))
}

/// Returns the points before and after a node in its parent, and caches its index as [`Tree::found_index`] does; none for a root.
pub fn found_around<X>(tree: &mut Tree<X>, node: NodeId) -> Option<(Point, Point)>
    requires { HasNode tree.old.forest node }
    ensures around { option_map (λ ends. record { start = ends.0; end = ends.1 }) result
        ≡ around tree.old.forest node }
    ensures unchanged { tree.new ≡ tree.old }
{
    let parent = tree.parent(node)?;
    let index = tree.found_index(node);
    Some(around_child(tree, parent, node, index))
}

// Returns the points before and after a child, given its index.
fn around_child<X>(tree: &Tree<X>, parent: NodeId, child: NodeId, index: usize) -> (Point, Point)
    requires held { HasNode tree.now.forest child }
    requires child { parent_of tree.now.forest child ≡ Some parent }
    requires index { index ≡ index_of tree.now.forest child }
    ensures ahead { result.0 ≡ record { node = parent; offset = index } }
    ensures behind { result.1 ≡ record { node = parent; offset = index + 1 } }
{
    tree.state_law();
    // an index is below the count, so the offset after the child fits too
    let _ = tree.count(parent);
    let before = Point {
        node: parent,
        offset: index,
    };
    let after = Point {
        node: parent,
        offset: index + 1,
    };
    (before, after)
}
