//! The parts of a range: the paths down to its ends, and the children between them (DOM Standard, "Interface Range", "partially contained").

ghost use Rattle.std.specs.Prelude.{◌≡◌, IfOk, slice_get};
ghost use Rattle.dom_model.specs.Forests.Forest.{HasNode, children_of, ancestors};
ghost use Rattle.dom_model.specs.Forests.Ways.{IsWay};
ghost use Rattle.dom_model.specs.PlainLists.Lists.{up_to};
ghost use Rattle.dom_model.specs.Soundness.Sound.{IsRange};
ghost use Rattle.dom_model.specs.RangesAndContents.Ranges.{common_ancestor};
ghost use Rattle.dom_model.specs.RangesAndContents.Contents.{path_below};
ghost use Rattle.dom_content.specs.DrawnParts.{ArePartsOf, contained_in_forest, index_behind, index_at};

use crate::child_slices::children_between;
use dom_edit::Content;
use dom_point::{Point, common};
use dom_tree::{NodeId, Tree};
use std::alloc::{AllocError, Global};

/// The partial and whole parts of a range: the paths from the common ancestor down to its ends, and the contained children of that ancestor.
#[derive(Drop)]
pub(crate) struct RangeParts {
    pub first: Vec<NodeId>,
    pub contained: Vec<NodeId>,
    pub last: Vec<NodeId>,
}

// Returns the inclusive ancestors of a node below another one, from the node on.
fn path_up(
    tree: &Tree<Content>,
    alloc: Global,
    ancestor: NodeId,
    node: NodeId,
) -> Result<Vec<NodeId>, AllocError>
    requires held { HasNode tree.now.forest node }
    ensures { IfOk result (λ path. path.items ≡ up_to ancestor (ancestors node tree.now.forest)) }
{
    tree.state_law();
    let mut path = Vec::new(alloc);
    let mut here = Some(node);
    while let Some(id) = here {
        if id == ancestor {
            return Ok(path);
        }
        path.push(id)?;
        here = tree.parent(id);
    }
    Ok(path)
}

// Returns the path from a child of an ancestor down to a node; empty if the node is the ancestor.
fn path_below(
    tree: &Tree<Content>,
    alloc: Global,
    ancestor: NodeId,
    node: NodeId,
) -> Result<Vec<NodeId>, AllocError>
    requires held { HasNode tree.now.forest node }
    ensures { IfOk result (λ path. path.items ≡ path_below tree.now.forest ancestor node) }
{
    let mut path = path_up(tree, alloc, ancestor, node)?;
    path.reverse();
    Ok(path)
}

// Returns the first node on a path.
pub(crate) fn head(path: &[NodeId]) -> Option<NodeId>
    ensures { result ≡ slice_get path.now 0 }
{
    path.first().copied()
}

// Returns the first child of a node after a point, given the path from the node down to that of the point.
fn child_behind(
    tree: &Tree<Content>,
    parent: NodeId,
    point: Point,
    path: &[NodeId],
) -> Option<NodeId>
    requires held { HasNode tree.now.forest point.node }
    requires way { IsWay tree.now.forest parent path.now point.node }
    ensures { result ≡ slice_get (children_of tree.now.forest parent)
        (index_behind tree.now.forest point path.now) }
{
    tree.state_law();
    match head(path) {
        Some(child) => tree.next(child),
        None => tree.child_at(point.node, point.offset),
    }
}

// Returns the child of a node in which a point is, or else the one after the point.
fn child_at(tree: &Tree<Content>, parent: NodeId, point: Point, path: &[NodeId]) -> Option<NodeId>
    requires held { HasNode tree.now.forest point.node }
    requires way { IsWay tree.now.forest parent path.now point.node }
    ensures { result ≡ slice_get (children_of tree.now.forest parent)
        (index_at tree.now.forest point path.now) }
{
    tree.state_law();
    match head(path) {
        Some(child) => Some(child),
        None => tree.child_at(point.node, point.offset),
    }
}

// Returns the contained children of the common ancestor of a range's ends, given the paths from there down to both. Goes from one path to the other.
fn contained_children(
    tree: &Tree<Content>,
    alloc: Global,
    ancestor: NodeId,
    start: Point,
    end: Point,
    first: &[NodeId],
    last: &[NodeId],
) -> Result<Vec<NodeId>, AllocError>
    requires range { IsRange tree.now.forest (record { start = start; end = end }) }
    requires ancestor { ancestor ≡ common_ancestor tree.now.forest start.node end.node }
    requires first { first.now ≡ path_below tree.now.forest
        (common_ancestor tree.now.forest start.node end.node) start.node }
    requires last { last.now ≡ path_below tree.now.forest
        (common_ancestor tree.now.forest start.node end.node) end.node }
    ensures { IfOk result (λ list. list.items ≡ contained_in_forest tree.now.forest
        (record { start = start; end = end })) }
{
    tree.state_law();
    let from = child_behind(tree, ancestor, start, first);
    let until = child_at(tree, ancestor, end, last);
    children_between(tree, alloc, ancestor, from, until)
}

// Returns the parts of a range that is not collapsed.
fn gather_parts(
    tree: &Tree<Content>,
    alloc: Global,
    start: Point,
    end: Point,
) -> Result<RangeParts, AllocError>
    requires range { IsRange tree.now.forest (record { start = start; end = end }) }
    ensures { IfOk result (λ parts. ArePartsOf tree.now.forest start end parts) }
{
    let ancestor = common(tree, start.node, end.node);
    let first = path_below(tree, alloc, ancestor, start.node)?;
    let last = path_below(tree, alloc, ancestor, end.node)?;
    let contained = contained_children(tree, alloc, ancestor, start, end, &first, &last)?;
    Ok(RangeParts {
        first,
        contained,
        last,
    })
}

// Returns the parts of a range, without collecting any if it is collapsed.
pub(crate) fn parts_of(
    tree: &Tree<Content>,
    alloc: Global,
    start: Point,
    end: Point,
) -> Result<RangeParts, AllocError>
    requires range { IsRange tree.now.forest (record { start = start; end = end }) }
    ensures { IfOk result (λ parts. ArePartsOf tree.now.forest start end parts) }
{
    tree.state_law();
    if start == end {
        return Ok(RangeParts {
            first: Vec::new(alloc),
            contained: Vec::new(alloc),
            last: Vec::new(alloc),
        });
    }
    gather_parts(tree, alloc, start, end)
}
