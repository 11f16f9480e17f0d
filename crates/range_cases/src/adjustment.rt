//! A live range that is made at checked points, and that changes of the tree adjust without taking memory.

ghost use Rattle.std.specs.Prelude.{◌≡◌, [], ◌∷◌, ◌++◌, Some, true, false, IfOk};
ghost use Rattle.std.specs.declared.cmp.Ordering.TheVariants.{Greater};
ghost use Rattle.dom_model.specs.declared.Kind.TheVariants.{DocumentType};
ghost use Rattle.dom_model.specs.Forests.Forest.{HasNode, root_of};
ghost use Rattle.dom_model.specs.BoundaryPoints.Points.{order_of};
ghost use Rattle.dom_model.specs.Forests.Nodes.{is_of_kind};
ghost use Rattle.dom_ranges.specs.Tables.{IsBoundaryIn};

use super::trees::{Grown, Place, Units, at, grow};
use dom_kinds::Kind;
use dom_point::{Point, order};
use dom_ranges::{RangeId, Ranges};
use dom_tree::{NodeId, Tree};
use growth_marks::{begins, ends};
use std::alloc::{AllocError, Global};
use std::cmp::Ordering;
use std::process::Abort;
use std::test::Fail;

// Returns whether the first of two points of one root comes after the second.
fn is_after(tree: &Tree<Units>, a: Point, b: Point) -> bool
    requires a_held { HasNode tree.now.forest a.node }
    requires b_held { HasNode tree.now.forest b.node }
    requires one_root { root_of tree.now.forest a.node ≡ root_of tree.now.forest b.node }
    ensures { result ≡ false → order_of tree.now.forest a b ≡ Greater → ⊥ }
{
    match order(tree, a, b) {
        Ordering::Greater => true,
        Ordering::Less | Ordering::Equal => false,
    }
}

// Returns whether a node is a doctype.
fn is_doctype(tree: &Tree<Units>, id: NodeId) -> bool
    requires { HasNode tree.now.forest id }
    ensures { result ≡ is_of_kind DocumentType tree.now.forest id }
{
    tree.label(id).kind == Kind::DocumentType
}

// Returns whether a point is a boundary point of a tree.
fn stands(tree: &Tree<Units>, p: Point) -> bool
    ensures { result ≡ true → IsBoundaryIn (λ (u : Units). u.0) tree.now.forest p }
{
    if !tree.holds(p.node) || is_doctype(tree, p.node) {
        return false;
    }
    p.offset <= tree.length(p.node)
}

// Makes a live range, covering the nodes if necessary, and returns whether its number is the expected one.
fn placed(
    ranges: &mut Ranges,
    tree: &Tree<Units>,
    due: u32,
    start: Point,
    end: Point,
) -> Result<bool, AllocError>
    ensures { IfOk result (λ is_made. is_made ≡ true →
        ranges.new.ranges ≡ ranges.old.ranges ++ Some (record { start = start; end = end }) ∷ []) }
{
    if !stands(tree, start) || !stands(tree, end) {
        return Ok(false);
    }
    if tree.root(start.node) != tree.root(end.node) || is_after(tree, start, end) {
        return Ok(false);
    }
    ranges.cover(10)?;
    if !ranges.is_covered(start.node) || !ranges.is_covered(end.node) {
        return Ok(false);
    }
    if ranges.made() >= 1_000_000 {
        return Ok(false);
    }
    Ok(ranges.make(tree, start, end)? == RangeId::new(due))
}

// The tree root [ a [ b ] t u ], numbered in this order, with ten units in t and six in u.
const WITH_TEXTS: &[Grown] = &[
    (Kind::Element, None, 0),
    (Kind::Element, Some(0), 0),
    (Kind::Element, Some(1), 0),
    (Kind::Text, Some(0), 10),
    (Kind::Text, Some(0), 6),
];

fn grow_with_texts(rt: &impl Abort, tree: &mut Tree<Units>) -> Result<(), AllocError> {
    let mut number = 0u32;
    for grown in WITH_TEXTS {
        assert!(rt; grow(tree, number, grown)?);
        number = number.saturating_add(1);
    }
    Ok(())
}

// Returns that tree.
fn with_texts(rt: &impl Abort, alloc: Global) -> Result<Tree<Units>, AllocError> {
    let mut tree = Tree::new(alloc);
    grow_with_texts(rt, &mut tree)?;
    Ok(tree)
}

// Returns ranges with a single one, numbered 0, and room for ends in a thousand nodes. Marks where code that takes no memory begins.
fn ready(
    rt: &impl Abort,
    alloc: Global,
    tree: &Tree<Units>,
    start: Point,
    end: Point,
) -> Result<Ranges, AllocError>
    ensures { IfOk result (λ ranges. ranges.ranges
        ≡ Some (record { start = start; end = end }) ∷ []) }
{
    let mut ranges = Ranges::new(alloc);
    ranges.cover(1000)?;
    let is_placed = placed(&mut ranges, tree, 0, start, end)?;
    assert!(rt; is_placed);
    let _ = begins(alloc)?;
    Ok(ranges)
}

// Asserts the ends of the range, and marks where code that takes no memory ends.
fn has_come(rt: &impl Abort, alloc: Global, ranges: &Ranges, start: Place, end: Place) {
    assert!(rt; ranges.holds(RangeId::new(0)));
    assert!(rt; ranges.ends(RangeId::new(0)) == (at(start), at(end)));
    let _ = ends(alloc);
}

#[test]
fn a_gap_without_a_growth(rt: HostRuntime) -> Result<(), Fail> {
    let tree = with_texts(&rt, rt.alloc())?;
    let mut ranges = ready(&rt, rt.alloc(), &tree, at((0, 1)), at((0, 3)))?;
    ranges.gap(NodeId::new(0), 1, 2);
    has_come(&rt, rt.alloc(), &ranges, (0, 1), (0, 5));
    Ok(())
}

#[test]
fn data_spliced_without_a_growth(rt: HostRuntime) -> Result<(), Fail> {
    let tree = with_texts(&rt, rt.alloc())?;
    let mut ranges = ready(&rt, rt.alloc(), &tree, at((3, 2)), at((3, 8)))?;
    ranges.spliced(NodeId::new(3), 1, 3, 5);
    has_come(&rt, rt.alloc(), &ranges, (3, 1), (3, 10));
    Ok(())
}

#[test]
fn a_text_split_without_a_growth(rt: HostRuntime) -> Result<(), Fail> {
    let tree = with_texts(&rt, rt.alloc())?;
    let (root, t, new) = (NodeId::new(0), NodeId::new(3), NodeId::new(9));
    let mut ranges = ready(&rt, rt.alloc(), &tree, at((3, 7)), at((0, 2)))?;
    assert!(rt; ranges.is_covered(new));
    assert!(rt; ranges.is_covered(root));
    ranges.was_split(t, 4, new, root, 1);
    has_come(&rt, rt.alloc(), &ranges, (9, 3), (0, 3));
    Ok(())
}

#[test]
fn texts_merged_without_a_growth(rt: HostRuntime) -> Result<(), Fail> {
    let tree = with_texts(&rt, rt.alloc())?;
    let (root, t, u) = (NodeId::new(0), NodeId::new(3), NodeId::new(4));
    let mut ranges = ready(&rt, rt.alloc(), &tree, at((0, 2)), at((4, 5)))?;
    assert!(rt; ranges.is_covered(t));
    ranges.merged(u, t, 10, root, 2);
    has_come(&rt, rt.alloc(), &ranges, (3, 10), (3, 15));
    Ok(())
}

// Adjusts the ranges for the removal of a node with a covered parent.
fn leave(ranges: &mut Ranges, tree: &Tree<Units>, node: NodeId) -> bool {
    if !tree.holds(node) {
        return false;
    }
    match tree.parent(node) {
        Some(parent) => {
            if !ranges.is_covered(parent) {
                return false;
            }
            ranges.removing(tree, node);
            true
        }
        None => false,
    }
}

#[test]
fn a_node_removed_without_a_growth(rt: HostRuntime) -> Result<(), Fail> {
    let tree = with_texts(&rt, rt.alloc())?;
    let mut ranges = ready(&rt, rt.alloc(), &tree, at((2, 0)), at((0, 2)))?;
    assert!(rt; leave(&mut ranges, &tree, NodeId::new(1)));
    has_come(&rt, rt.alloc(), &ranges, (0, 0), (0, 1));
    Ok(())
}
