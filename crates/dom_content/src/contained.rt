//! The nodes that a range contains (DOM Standard, "Interface Range", "contained").

ghost use Rattle.std.specs.Prelude.{◌≡◌, ℕ, ◌≤◌, ◌∷◌, [], true, false, Some, IfOk};
ghost use Rattle.dom_model.specs.PlainLists.Lists.{after};
ghost use Rattle.dom_model.specs.Forests.Forest.{HasNode, root_of, inclusive_descendants};
ghost use Rattle.dom_model.specs.Worlds.Lengths.{unit_count, node_length};
ghost use Rattle.dom_model.specs.Soundness.Sound.{IsRange};
ghost use Rattle.dom_model.specs.RangesAndContents.Ranges.{is_before};
ghost use Rattle.dom_model.specs.RangesAndContents.Contents.{contained_tops};
ghost use Rattle.dom_model.specs.RangesAndContents.BesidePaths.{tail_nodes, head_nodes};
ghost use Rattle.dom_edit.specs.Insertion.{AreThere};
ghost use Rattle.dom_edit.specs.Whole.{IsWhole, unwatched};
ghost use Rattle.dom_content.specs.DrawnParts.{ArePartsOf};

use crate::child_slices::{children_ahead, children_from, children_past, children_until};
use crate::range_parts::RangeParts;
use dom_edit::{Content, World};
use dom_point::Point;
use dom_tree::{NodeId, Tree};
use std::alloc::{AllocError, Global};

// Returns the children of a node from an offset on; none for a node with data.
fn tail_of(
    world: &World,
    alloc: Global,
    node: NodeId,
    offset: usize,
) -> Result<Vec<NodeId>, AllocError>
    requires held { HasNode world.now.tree.forest node }
    ensures { IfOk result (λ list. list.items ≡ tail_nodes (unwatched world.now) offset
        (node ∷ [])) }
{
    if world.tree.has_data(node) {
        return Ok(Vec::new(alloc));
    }
    children_from(&world.tree, alloc, node, offset)
}

// Returns the children of a node up to an offset; none for a node with data.
fn head_of(
    world: &World,
    alloc: Global,
    node: NodeId,
    offset: usize,
) -> Result<Vec<NodeId>, AllocError>
    requires held { HasNode world.now.tree.forest node }
    ensures { IfOk result (λ list. list.items ≡ head_nodes (unwatched world.now) offset
        (node ∷ [])) }
{
    if world.tree.has_data(node) {
        return Ok(Vec::new(alloc));
    }
    children_until(&world.tree, alloc, node, offset)
}

// Returns the nodes after a path, from an offset of its last node on: the deepest first, as in tree order.
fn tail_nodes(
    world: &World,
    alloc: Global,
    offset: usize,
    path: &[NodeId],
) -> Result<Vec<NodeId>, AllocError>
    requires held { AreThere world.now.tree.forest path.now }
    ensures { IfOk result (λ list. list.items ≡ tail_nodes (unwatched world.now) offset path.now) }
{
    let mut left = path.len();
    if left == 0 {
        return Ok(Vec::new(alloc));
    }
    let mut list = tail_of(world, alloc, path[left - 1], offset)?;
    while left > 1 {
        left -= 1;
        let mut behind = children_past(&world.tree, alloc, path[left - 1], path[left])?;
        list.append(&mut behind)?;
    }
    Ok(list)
}

// Returns the nodes before a path, up to an offset of its last node: the deepest last.
fn head_nodes(
    world: &World,
    alloc: Global,
    offset: usize,
    path: &[NodeId],
) -> Result<Vec<NodeId>, AllocError>
    requires held { AreThere world.now.tree.forest path.now }
    ensures { IfOk result (λ list. list.items ≡ head_nodes (unwatched world.now) offset path.now) }
{
    let count = path.len();
    let mut list = Vec::new(alloc);
    if count == 0 {
        return Ok(list);
    }
    for k in 1..count {
        let mut ahead = children_ahead(&world.tree, alloc, path[k - 1], path[k])?;
        list.append(&mut ahead)?;
    }
    let mut ahead = head_of(world, alloc, path[count - 1], offset)?;
    list.append(&mut ahead)?;
    Ok(list)
}

// Returns the contained nodes whose parents are not contained, in tree order: those beside the paths to both ends, and the children of the common
// ancestor between them.
pub(crate) fn contained_tops(
    world: &World,
    alloc: Global,
    start: Point,
    end: Point,
    parts: &RangeParts,
) -> Result<Vec<NodeId>, AllocError>
    requires whole { IsWhole world.now }
    requires range { IsRange world.now.tree.forest (record { start = start; end = end }) }
    requires parts { ArePartsOf world.now.tree.forest start end parts.now }
    ensures { IfOk result (λ tops. tops.items ≡ contained_tops (unwatched world.now)
        (record { start = start; end = end })) }
{
    let mut tops = tail_nodes(world, alloc, start.offset, &parts.first)?;
    tops.extend_from_slice(&parts.contained)?;
    let mut last = head_nodes(world, alloc, end.offset, &parts.last)?;
    tops.append(&mut last)?;
    Ok(tops)
}

// Returns the last node in tree order that does not begin after a point: the point's node, or the last descendant of the child before it.
pub(crate) fn last_ahead(tree: &Tree<Content>, point: Point) -> NodeId
    requires held { HasNode tree.now.forest point.node }
    ensures held { HasNode tree.now.forest result }
    ensures one_root { root_of tree.now.forest result ≡ root_of tree.now.forest point.node }
    ensures ahead { is_before tree.now.forest point (record { node = result; offset = 0 }) ≡ false }
    ensures behind { (root next : ℕ) → root_of tree.now.forest point.node ≡ Some root →
        point.offset ≤ node_length unit_count tree.now.forest point.node →
        after result (inclusive_descendants tree.now.forest root) ≡ Some next →
        is_before tree.now.forest point (record { node = next; offset = 0 }) ≡ true }
{
    tree.state_law();
    let Point { node, offset } = point;
    if offset == 0 {
        return node;
    }
    match tree.child_at(node, offset - 1) {
        Some(child) => tree.last_inside(child),
        None => node,
    }
}
