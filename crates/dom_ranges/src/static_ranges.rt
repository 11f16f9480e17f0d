//! Static ranges (DOM Standard, "Interface StaticRange").

ghost use Rattle.std.specs.Prelude.{◌≡◌, ◌<◌, nat_le, [], ◌∷◌, ◌++◌, length, count_by, flat_map, slice_set, Some, None, IsSome, is_some, IfSome, IfOk, OnOk, OnErr};
ghost use Rattle.std.specs.List.{list_any};
ghost use Rattle.std.specs.Option.{ForSome};
ghost use Rattle.dom_model.specs.PlainLists.Lists.{among};
ghost use Rattle.dom_model.specs.Forests.Forest.{HasNode, inclusive_descendants};
ghost use Rattle.dom_model.specs.Worlds.World.{Range};
ghost use Rattle.dom_model.specs.RangesAndContents.StaticRanges.{check_static, is_valid_static};
ghost use Rattle.dom_model.specs.MutationAlgorithms.Discarding.{nodes_of_range, nodes_unless_released};
ghost use Rattle.dom_model.specs.Worlds.Lengths.{node_length};
ghost use Rattle.dom_pages.specs.Numbered.{item_at};
ghost use Rattle.dom_ranges.specs.Tables.{result_of_check};

use crate::end_counts::EndCounts;
use dom_ids::Id;
use dom_kinds::{DomError, Kind};
use dom_point::{Point, found_before, same_root};
use dom_slots::NumberedItems;
use dom_tree::{Body, NodeId, Tree};
use std::alloc::{AllocError, Global};
use std::marker::Model;

/// The kind of a [`StaticId`].
#[derive(Clone, Copy, Debug, PartialEq, Eq, Hash, Drop)]
pub struct OfStatic;

/// The number of a static range. The first is 0, and no number is reused.
pub type StaticId = Id<OfStatic>;

/// Two boundary points that no change of the tree moves.
#[derive(Clone, Copy, Drop)]
struct StaticRange {
    start: Point,
    end: Point,
}

impl Model for StaticRange {
    ghost use Rattle.dom_model.specs.Worlds.World.{Range};

    ghost Value = { Range };

    ghost view = { λ r. record { start = r.start; end = r.end } };

    ghost inverse = { λ r. record { start = r.start; end = r.end } };
}

/// The static ranges of a session, and the number of their ends by node.
#[derive(Drop)]
pub struct Statics {
    ranges: NumberedItems<StaticRange>,
    counts: EndCounts,
}

impl Model for Statics {
    ghost use Rattle.std.specs.Prelude.{List, Option};
    ghost use Rattle.dom_model.specs.Worlds.World.{Range};
    ghost use Rattle.dom_slots.specs.Slotted.{by_slot};
    ghost use Rattle.dom_ranges.specs.StaticEnds.{AreKept};

    ghost Value = { List (Option Range) };

    ghost view = { λ a. by_slot a.ranges.slots a.ranges.items };

    ghost invariant = { λ a. AreKept a.ranges.items a.counts.counts };
}

impl Statics {
    /// Returns a table without static ranges. It takes no memory.
    pub fn new(alloc: Global) -> Statics
        ensures { result ≡ [] }
    {
        Statics {
            ranges: NumberedItems::new(alloc),
            counts: EndCounts::new(alloc),
        }
    }

    /// Refuses a doctype as either node.
    pub fn check<X>(tree: &Tree<X>, start: NodeId, end: NodeId) -> Result<(), DomError>
        requires start_held { HasNode tree.now.forest start }
        requires end_held { HasNode tree.now.forest end }
        ensures { result ≡ result_of_check (check_static tree.now.forest start end) }
    {
        if tree.is_of_kind(start, Kind::DocumentType) || tree.is_of_kind(end, Kind::DocumentType) {
            return Err(DomError::InvalidNodeTypeError);
        }
        Ok(())
    }

    /// Makes a static range.
    pub fn make(&mut self, start: Point, end: Point) -> Result<StaticId, AllocError>
        requires { length self.old < 4294967295 }
        ensures number { IfOk result (λ u. u ≡ length self.old) }
        ensures made { OnOk result (self.new ≡ self.old
            ++ Some (record { start = start; end = end }) ∷ []) }
        ensures unchanged { OnErr result (self.new ≡ self.old) }
    {
        self.ranges.state_law();
        self.ranges.reserve(1)?;
        self.counts.reserve(2)?;
        self.counts.add(start.node);
        self.counts.add(end.node);
        let number = self.ranges.push_reserved(StaticRange { start, end });
        Ok(StaticId::new(number))
    }

    /// Returns how many were ever made.
    pub fn made(&self) -> u64
        ensures { result ≡ length self.now }
    {
        self.ranges.made()
    }

    /// Returns how many are not released, in constant time.
    pub fn count(&self) -> usize
        ensures { result ≡ count_by is_some self.now }
    {
        self.ranges.count()
    }

    // Returns the range of a number; none if it was released or never given out.
    fn range(&self, u: StaticId) -> Option<StaticRange>
        ensures { result ≡ item_at self.now u }
    {
        self.ranges.get(u.number()).copied()
    }

    /// Returns whether a number is that of a static range that was not released.
    pub fn holds(&self, u: StaticId) -> bool
        ensures { result ≡ is_some (item_at self.now u) }
    {
        self.ranges.holds(u.number())
    }

    /// Returns the start and the end of a static range.
    pub fn ends(&self, u: StaticId) -> (Point, Point)
        requires { IsSome (item_at self.now u) }
        ensures { item_at self.now u ≡ Some (record { start = result.0; end = result.1 }) }
    {
        let StaticRange { start, end } = self.range(u).unwrap();
        (start, end)
    }

    /// Releases a static range. Its number is not reused. It takes no memory.
    pub fn release(&mut self, u: StaticId)
        requires { IsSome (item_at self.old u) }
        ensures { self.new ≡ slice_set self.old u None }
    {
        let (_, StaticRange { start, end }) = self.ranges.release(u.number());
        self.counts.take(start.node);
        self.counts.take(end.node);
    }

    /// Returns whether the range is valid in the tree. Requires that both nodes are held. Caches the indices that it needs.
    pub fn is_valid<X: Body>(&self, tree: &mut Tree<X>, u: StaticId) -> bool
        requires held { IsSome (item_at self.now u) }
        requires start_held { ForSome (item_at self.now u) (λ r.
            HasNode tree.old.forest r.start.node) }
        requires end_held { ForSome (item_at self.now u) (λ r. HasNode tree.old.forest r.end.node) }
        ensures valid { IfSome (item_at self.now u) (λ r. result
            ≡ is_valid_static X.length tree.old.forest r) }
        ensures unchanged { tree.new ≡ tree.old }
    {
        let (start, end) = self.ends(u);
        are_valid(tree, start, end)
    }

    /// Returns whether an end of a static range is inside a subtree.
    ///
    /// Walks the subtree, or climbs from each end if that takes fewer steps.
    pub fn refers<X>(&self, tree: &Tree<X>, top: NodeId) -> bool
        requires { HasNode tree.now.forest top }
        ensures { result ≡ list_any (λ m. among m (inclusive_descendants tree.now.forest top))
            (flat_map (nodes_unless_released nodes_of_range) self.now) }
    {
        self.ranges.state_law();
        let steps = tree.steps_inside(top, |index| self.node(index));
        match tree.any_inside(top, steps, |node| self.names(node)) {
            Some(answer) => answer,
            None => refer(self.ranges.items(), tree, top),
        }
    }

    // Returns the node of an end, two for the range in each slot; none past the last.
    fn node(&self, index: usize) -> Option<NodeId> {
        let range = self.ranges.items().get(index / 2)?;
        if index % 2 == 0 {
            Some(range.start.node)
        } else {
            Some(range.end.node)
        }
    }

    // Returns whether a node has an end.
    fn names(&self, node: NodeId) -> bool
        ensures { result ≡ among node (flat_map (nodes_unless_released nodes_of_range) self.now) }
    {
        self.ranges.state_law();
        self.counts.stands_in(node)
    }
}

// Returns whether an end of one of these ranges is inside a subtree. Visits each range.
fn refer<X>(ranges: &[StaticRange], tree: &Tree<X>, top: NodeId) -> bool
    ensures { result ≡ list_any (λ m. among m (inclusive_descendants tree.now.forest top))
        (flat_map nodes_of_range ranges.now) }
{
    for range in ranges {
        if tree.is_inside(top, range.start.node) || tree.is_inside(top, range.end.node) {
            return true;
        }
    }
    false
}

// Returns whether an offset is within a node's length.
fn is_within<X: Body>(tree: &Tree<X>, node: NodeId, offset: usize) -> bool
    requires { HasNode tree.now.forest node }
    ensures { result ≡ nat_le offset (node_length X.length tree.now.forest node) }
{
    offset <= tree.length(node)
}

// Returns whether two points are the ends of a valid range.
fn are_valid<X: Body>(tree: &mut Tree<X>, start: Point, end: Point) -> bool
    requires start_held { HasNode tree.old.forest start.node }
    requires end_held { HasNode tree.old.forest end.node }
    ensures valid { result ≡ is_valid_static X.length tree.old.forest
        (record { start = start; end = end }) }
    ensures unchanged { tree.new ≡ tree.old }
{
    if !same_root(tree, start.node, end.node) {
        return false;
    }
    if !is_within(tree, start.node, start.offset) || !is_within(tree, end.node, end.offset) {
        return false;
    }
    !found_before(tree, end, start)
}
