//! Calls of `dom_ranges`.

ghost use Rattle.std.specs.Prelude.{◌≡◌, ◌<◌, length, Some, IsSome, IfSome, IfOk, OnErr};
ghost use Rattle.dom_model.specs.BoundaryPoints.Points.{after_splice};
ghost use Rattle.dom_ranges.specs.Tables.{IsCovered, IsBoundaryIn, OffsetsFit, range_in};

use dom_point::Point;
use dom_ranges::{RangeId, Ranges};
use dom_tree::{Body, NodeId, Tree};
use std::alloc::AllocError;

/// Makes a live range with both ends at one point of a tree.
pub fn make_caret<X: Body>(
    ranges: &mut Ranges,
    tree: &Tree<X>,
    at: Point,
) -> Result<RangeId, AllocError>
    requires room { length ranges.old.ranges < 4294967295 }
    requires covered { IsCovered ranges.old at.node }
    requires stands { IsBoundaryIn X.length tree.now.forest at }
    ensures stands { IfOk result (λ caret. range_in ranges.new caret
        ≡ Some (record { start = at; end = at })) }
    ensures err { OnErr result (ranges.new ≡ ranges.old) }
{
    ranges.make(tree, at, at)
}

/// Adjusts live ranges for units that are typed before the data of a node, and returns the start of a range.
pub fn start_after_typing(ranges: &mut Ranges, range: RangeId, text: NodeId, count: usize) -> Point
    requires held { IsSome (range_in ranges.old range) }
    requires fit { OffsetsFit (after_splice text 0 0 count) ranges.old.ranges }
    ensures start { IfSome (range_in ranges.old range) (λ old. result
        ≡ after_splice text 0 0 count old.start) }
{
    ranges.spliced(text, 0, 0, count);
    let (start, _) = ranges.ends(range);
    start
}
