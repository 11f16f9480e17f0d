//! Whether the contents of a live range can be surrounded by a node (DOM Standard, "Interface Range", surroundContents).

ghost use Rattle.std.specs.Prelude.{◌≡◌, ◌&&◌, ◌||◌, not, true, None, Some, IsSome, MatchResult};
ghost use Rattle.std.specs.List.{list_any};
ghost use Rattle.dom_model.specs.declared.Kind.TheVariants.{Element, Document, DocumentType, DocumentFragment};
ghost use Rattle.dom_model.specs.Forests.Forest.{HasNode, children_of, root_of};
ghost use Rattle.dom_model.specs.Soundness.Sound.{IsRange};
ghost use Rattle.dom_model.specs.MutationAlgorithms.Checks.{has_kind};
ghost use Rattle.dom_model.specs.Forests.Nodes.{is_of_kind};
ghost use Rattle.dom_model.specs.RangesAndContents.Contents.{common_of};
ghost use Rattle.dom_model.specs.RangesAndContents.Wrapping.{check_whole_surround};
ghost use Rattle.dom_ranges.specs.Tables.{range_in};
ghost use Rattle.dom_edit.specs.Whole.{IsWhole, unwatched};
ghost use Rattle.dom_edit.specs.InsertionPoints.{from_optional, IsAmong};
ghost use Rattle.dom_wrap.specs.SurroundRefusal.{is_near, is_refused_at, is_refused_between, is_refused, is_unplaceable, is_left_element, first_behind};

use crate::insert_into_range::{parent_at, reference_at};
use dom_edit::{Content, World, check_insert};
use dom_kinds::{DomError, Kind};
use dom_point::{Point, common, is_before};
use dom_ranges::RangeId;
use dom_tree::{NodeId, Tree};

// Returns whether an end is in a node, or in a Text that is its child.
fn is_near(tree: &Tree<Content>, node: NodeId, end: NodeId) -> bool
    requires { HasNode tree.now.forest end }
    ensures { result ≡ is_near tree.now.forest node end }
{
    end == node || (tree.is_of_kind(end, Kind::Text) && tree.parent(end) == Some(node))
}

// Returns whether a node is an element that is not contained in a range of its root.
fn is_left_element(world: &World, start: Point, end: Point, node: NodeId) -> bool
    requires held { HasNode world.now.tree.forest node }
    requires start_held { HasNode world.now.tree.forest start.node }
    requires end_held { HasNode world.now.tree.forest end.node }
    requires start_root { root_of world.now.tree.forest node
        ≡ root_of world.now.tree.forest start.node }
    requires end_root { root_of world.now.tree.forest node
        ≡ root_of world.now.tree.forest end.node }
    ensures { result ≡ is_left_element (unwatched world.now) (record { start = start; end = end })
        node }
{
    if !world.tree.is_of_kind(node, Kind::Element) {
        return false;
    }
    let front = Point { node, offset: 0 };
    let back = Point {
        node,
        offset: world.tree.length(node),
    };
    !is_before(&world.tree, start, front) || !is_before(&world.tree, back, end)
}

// Returns whether a node has an element child that a range does not contain.
fn leaves_element(world: &World, start: Point, end: Point, parent: NodeId) -> bool
    requires held { HasNode world.now.tree.forest parent }
    requires start_held { HasNode world.now.tree.forest start.node }
    requires end_held { HasNode world.now.tree.forest end.node }
    requires start_root { root_of world.now.tree.forest parent
        ≡ root_of world.now.tree.forest start.node }
    requires end_root { root_of world.now.tree.forest parent
        ≡ root_of world.now.tree.forest end.node }
    ensures { result ≡ list_any (λ m. is_left_element (unwatched world.now)
        (record { start = start; end = end }) m)
        (children_of world.now.tree.forest parent) }
{
    world.tree.state_law();
    for child in world.tree.children(parent) {
        if is_left_element(world, start, end, child) {
            return true;
        }
    }
    false
}

// Returns whether a child of a node, or a later sibling of it, is a doctype.
fn has_doctype_from(tree: &Tree<Content>, parent: NodeId, first: Option<NodeId>) -> bool
    requires held { HasNode tree.now.forest parent }
    requires under { IsAmong first (children_of tree.now.forest parent) }
    ensures { result ≡ has_kind DocumentType tree.now.forest
        (from_optional first (children_of tree.now.forest parent)) }
{
    tree.state_law();
    for child in tree.children_from(parent, first) {
        if tree.is_of_kind(child, Kind::DocumentType) {
            return true;
        }
    }
    false
}

// Returns the child of the deepest common ancestor before which an element would be inserted, once the contents are removed; none at the end.
fn first_behind(world: &World, start: Point, end: Point, common: NodeId) -> Option<NodeId>
    requires whole { IsWhole world.now }
    requires range { IsRange world.now.tree.forest (record { start = start; end = end }) }
    requires common { common ≡ common_of (unwatched world.now)
        (record { start = start; end = end }) }
    requires near { is_near world.now.tree.forest common start.node ≡ true }
    ensures { result ≡ first_behind (unwatched world.now) (record { start = start; end = end }) }
{
    if world.tree.is_ancestor(start.node, end.node) {
        world.tree.child_at(common, start.offset)
    } else {
        world.tree.next(start.node)
    }
}

// Returns whether an element cannot be inserted at a point now.
fn is_refused_at(world: &World, point: Point, node: NodeId) -> bool
    requires whole { IsWhole world.now }
    requires point_held { HasNode world.now.tree.forest point.node }
    requires node_held { HasNode world.now.tree.forest node }
    requires element { is_of_kind Element world.now.tree.forest node ≡ true }
    ensures { result ≡ is_refused_at (unwatched world.now) point node }
{
    let parent = parent_at(world, point);
    let reference = reference_at(world, point);
    check_insert(&world.tree, parent, node, reference).is_err()
}

// Returns whether an element cannot be inserted under the deepest common ancestor, once the contained children are removed.
fn is_refused_between(world: &World, start: Point, end: Point, common: NodeId, node: NodeId) -> bool
    requires whole { IsWhole world.now }
    requires range { IsRange world.now.tree.forest (record { start = start; end = end }) }
    requires common { common ≡ common_of (unwatched world.now)
        (record { start = start; end = end }) }
    requires near { is_near world.now.tree.forest common start.node ≡ true }
    requires held { HasNode world.now.tree.forest common }
    requires start_root { root_of world.now.tree.forest common
        ≡ root_of world.now.tree.forest start.node }
    requires end_root { root_of world.now.tree.forest common
        ≡ root_of world.now.tree.forest end.node }
    ensures { result ≡ is_refused_between (unwatched world.now)
        (record { start = start; end = end }) node }
{
    if world.tree.is_ancestor(node, common) {
        return true;
    }
    if !world.tree.is_of_kind(common, Kind::Document) {
        return false;
    }
    if leaves_element(world, start, end, common) {
        return true;
    }
    let behind = first_behind(world, start, end, common);
    has_doctype_from(&world.tree, common, behind)
}

// Returns whether an element cannot be inserted once the contents of a range are removed.
fn is_refused(world: &World, start: Point, end: Point, common: NodeId, node: NodeId) -> bool
    requires whole { IsWhole world.now }
    requires range { IsRange world.now.tree.forest (record { start = start; end = end }) }
    requires common { common ≡ common_of (unwatched world.now)
        (record { start = start; end = end }) }
    requires near { is_near world.now.tree.forest common start.node ≡ true }
    requires node_held { HasNode world.now.tree.forest node }
    requires element { is_of_kind Element world.now.tree.forest node ≡ true }
    ensures { result ≡ is_refused (unwatched world.now) (record { start = start; end = end }) node }
{
    let is_in_one_data = start.node == end.node && world.tree.has_data(start.node);
    if start == end || is_in_one_data {
        return is_refused_at(world, start, node);
    }
    is_refused_between(world, start, end, common, node)
}

// Returns whether an end is deeper than in a Text under the deepest common ancestor.
fn is_deep(tree: &Tree<Content>, common: NodeId, start: NodeId, end: NodeId) -> bool
    requires start_held { HasNode tree.now.forest start }
    requires end_held { HasNode tree.now.forest end }
    ensures { result ≡ not (is_near tree.now.forest common start
        && is_near tree.now.forest common end) }
{
    !(is_near(tree, common, start) && is_near(tree, common, end))
}

// Returns whether a node is a Document, a doctype or a fragment, which cannot be the new parent.
fn is_invalid_parent(tree: &Tree<Content>, node: NodeId) -> bool
    requires held { HasNode tree.now.forest node }
    ensures { result ≡ (is_of_kind Document tree.now.forest node
        || (is_of_kind DocumentType tree.now.forest node
        || is_of_kind DocumentFragment tree.now.forest node)) }
{
    tree.is_of_kind(node, Kind::Document)
        || tree.is_of_kind(node, Kind::DocumentType)
        || tree.is_of_kind(node, Kind::DocumentFragment)
}

// Returns whether a node is no element, or cannot be inserted once the contents of a range are removed.
fn is_unplaceable(world: &World, start: Point, end: Point, common: NodeId, node: NodeId) -> bool
    requires whole { IsWhole world.now }
    requires range { IsRange world.now.tree.forest (record { start = start; end = end }) }
    requires common { common ≡ common_of (unwatched world.now)
        (record { start = start; end = end }) }
    requires near { is_near world.now.tree.forest common start.node ≡ true }
    requires node_held { HasNode world.now.tree.forest node }
    ensures { result ≡ is_unplaceable (unwatched world.now) (record { start = start; end = end })
        node }
{
    !world.tree.is_of_kind(node, Kind::Element) || is_refused(world, start, end, common, node)
}

/// Returns `Ok` if `surround` will succeed, or else the exception with which it will refuse.
pub fn can_surround(world: &World, range: RangeId, node: NodeId) -> Result<(), DomError>
    requires whole { IsWhole world.now }
    requires held { IsSome (range_in world.now.ranges range) }
    requires node_held { HasNode world.now.tree.forest node }
    ensures { MatchResult result (λ _. check_whole_surround range node (unwatched world.now) ≡ None)
        (λ e. check_whole_surround range node (unwatched world.now) ≡ Some e) }
{
    let (start, end) = world.ranges.ends(range);
    let common = common(&world.tree, start.node, end.node);
    if is_deep(&world.tree, common, start.node, end.node) {
        return Err(DomError::InvalidStateError);
    }
    if is_invalid_parent(&world.tree, node) {
        return Err(DomError::InvalidNodeTypeError);
    }
    if is_unplaceable(world, start, end, common, node) {
        return Err(DomError::HierarchyRequestError);
    }
    Ok(())
}
