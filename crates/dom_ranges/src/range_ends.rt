//! The ends of live ranges, in buckets by node.

ghost use Rattle.std.specs.Prelude.{◌≡◌, ℕ, ◌+◌, ◌^◌, ◌<◌, ◌≤◌, true, [], ◌∷◌, ◌++◌, length, map, slice_get, slice_set, Some};
ghost use Rattle.std.specs.List.{list_any};
ghost use Rattle.dom_model.specs.PlainLists.Lists.{among};
ghost use Rattle.dom_model.specs.Forests.Forest.{inclusive_descendants};
ghost use Rattle.dom_chains.specs.Keyed.{covers, key_at, keys_of, on_key};
ghost use Rattle.dom_ranges.specs.Ends.{keyed_end, moved_end};
ghost use Rattle.dom_ranges.specs.Shifts.{shifted, CanMove, GoesElsewhere, StaysBeside};
ghost use Rattle.dom_ranges.specs.Tables.{moved_in};

use crate::shift::Shift;
use dom_chains::{Chains, HeadsInPages};
use dom_point::Point;
use dom_tree::{NodeId, Tree};

/// Ends by number: each has an offset, and its node as the key.
pub(crate) type Ends = Chains<usize, HeadsInPages>;

/// Returns the point of an end.
pub(crate) fn point(ends: &Ends, id: usize) -> Point
    requires { id < length ends.now.items }
    ensures { slice_get ends.now.items id ≡ Some (keyed_end result) }
{
    let (node, offset) = ends.get(id).unwrap();
    Point {
        node: NodeId::new(node),
        offset,
    }
}

/// Returns the node of an end; none past the last end.
pub(crate) fn node(ends: &Ends, id: usize) -> Option<NodeId>
    ensures { result ≡ key_at ends.now.items id }
{
    let (node, _) = ends.get(id)?;
    Some(NodeId::new(node))
}

/// Adds an end at a point. Requires room.
pub(crate) fn push_reserved(ends: &mut Ends, at: Point)
    requires room { 0 < ends.old.room }
    requires few { length ends.old.items < 2 ^ 33 }
    requires covered { covers ends.old.covered at.node ≡ true }
    ensures items { ends.new.items ≡ ends.old.items ++ keyed_end at ∷ [] }
    ensures covered { ends.new.covered ≡ ends.old.covered }
    ensures room { ends.old.room ≤ ends.new.room + 1 }
{
    ends.push_reserved(at.node.number(), at.offset);
}

/// Moves an end to a point.
pub(crate) fn place(ends: &mut Ends, id: usize, to: Point)
    requires within { id < length ends.old.items }
    requires covered { covers ends.old.covered to.node ≡ true }
    ensures { ends.new ≡ record ends.old { items = slice_set ends.old.items id (keyed_end to) } }
{
    ends.place(id, to.node.number(), to.offset);
}

/// Shifts the ends in a node.
pub(crate) fn shift(ends: &mut Ends, node: NodeId, by: &Shift)
    requires { CanMove (shifted by.now) node ends.old.items ends.old.covered }
    ensures { ends.new ≡ record ends.old {
      items = map (on_key node (moved_end (shifted by.now))) ends.old.items;
    } }
{
    ends.change(node.number(), by);
}

/// Shifts the ends in two nodes, which may be the same. No end of the first moves to the second.
pub(crate) fn shift_both(ends: &mut Ends, first: NodeId, second: NodeId, by: &Shift)
    requires within { (node : ℕ) →
        CanMove (shifted by.now) node ends.old.items ends.old.covered }
    requires apart { GoesElsewhere first second (shifted by.now) }
    requires beside { StaysBeside first second (shifted by.now) }
    ensures { ends.new ≡ record ends.old {
      items = map (moved_end (shifted by.now)) ends.old.items;
    } }
{
    shift(ends, first, by);
    if second != first {
        shift(ends, second, by);
    }
}

/// Returns whether an end is inside a subtree. Visits each end.
pub(crate) fn refer<X>(ends: &Ends, tree: &Tree<X>, top: NodeId) -> bool
    ensures { result ≡ list_any (λ m. among m (inclusive_descendants tree.now.forest top))
        (keys_of ends.now.items) }
{
    for id in 0..ends.count() {
        let end = point(ends, id);
        if tree.is_inside(top, end.node) {
            return true;
        }
    }
    false
}

/// Moves all ends inside a subtree to one point. Visits each end.
pub(crate) fn gather<X>(ends: &mut Ends, tree: &Tree<X>, top: NodeId, to: Point)
    requires { covers ends.old.covered to.node ≡ true }
    ensures { ends.new ≡ record ends.old {
      items = map (moved_end (moved_in (inclusive_descendants tree.now.forest top) to))
          ends.old.items;
    } }
{
    for id in 0..ends.count() {
        let end = point(ends, id);
        if tree.is_inside(top, end.node) {
            place(ends, id, to);
        }
    }
}
