//! How a change of the tree moves boundary points.

ghost use Rattle.std.specs.Prelude.{◌≡◌, ◌^◌, ◌<◌};
ghost use Rattle.dom_model.specs.BoundaryPoints.Points.{after_split, after_merge};
ghost use Rattle.dom_ranges.specs.Ends.{moved_end};
ghost use Rattle.dom_ranges.specs.Shifts.{shifted, spliced_offset, FitsMovedEnd};

use dom_chains::Change;
use dom_point::Point;
use dom_tree::NodeId;

/// A map of points (DOM Standard, "Live ranges").
#[derive(Clone, Copy)]
pub(crate) enum Shift {
    /// In a node, at `at`, `added` units or children replace `count`.
    Splice {
        inside: NodeId,
        at: usize,
        count: usize,
        added: usize,
    },
    /// A Text, its parent's child at the index, is split at `at`.
    Split {
        text: NodeId,
        at: usize,
        new: NodeId,
        parent: NodeId,
        index: usize,
    },
    /// A Text, its parent's child at the index, is merged into another, whose length was `base`.
    Merge {
        from: NodeId,
        into: NodeId,
        base: usize,
        parent: NodeId,
        index: usize,
    },
    /// All points move to one.
    Gather {
        to: Point,
    },
}

impl Change<usize> for Shift {
    ghost changed = { λ s. moved_end (shifted s) };

    ghost CanTake = { λ s. FitsMovedEnd (shifted s) };

    fn apply(&self, key: u32, item: usize) -> (u32, usize) {
        let Point { node, offset } = self.moved(Point {
            node: NodeId::new(key),
            offset: item,
        });
        (node.number(), offset)
    }
}

impl Shift {
    // Returns the new point.
    fn moved(&self, point: Point) -> Point
        requires { point.offset < 2 ^ 64 → (shifted self.now point).offset < 2 ^ 64 }
        ensures { result ≡ shifted self.now point }
    {
        match *self {
            Shift::Splice {
                inside,
                at,
                count,
                added,
            } if point.node == inside => Point {
                node: inside,
                offset: spliced(point.offset, at, count, added),
            },
            Shift::Splice { .. } => point,
            Shift::Split {
                text,
                at,
                new,
                parent,
                index,
            } => split(point, text, at, new, parent, index),
            Shift::Merge {
                from,
                into,
                base,
                parent,
                index,
            } => merged(point, from, into, base, parent, index),
            Shift::Gather { to } => to,
        }
    }
}

// Returns an offset after `added` units have replaced `count`.
fn spliced(offset: usize, at: usize, count: usize, added: usize) -> usize
    requires { spliced_offset at count added offset < 2 ^ 64 }
    ensures { result ≡ spliced_offset at count added offset }
{
    if offset <= at {
        offset
    } else if offset - at <= count {
        at
    } else {
        offset - count + added
    }
}

// Returns a point after a Text was split.
fn split(point: Point, text: NodeId, at: usize, new: NodeId, parent: NodeId, index: usize) -> Point
    requires { point.offset < 2 ^ 64 → (after_split text at new parent index point).offset
        < 2 ^ 64 }
    ensures { result ≡ after_split text at new parent index point }
{
    let Point { node, offset } = point;
    if node == text && at < offset {
        return Point {
            node: new,
            offset: offset - at,
        };
    }
    if node == parent && offset.checked_sub(1) == Some(index) {
        return Point {
            node,
            offset: offset + 1,
        };
    }
    point
}

// Returns a point after a Text was merged into another.
fn merged(
    point: Point,
    from: NodeId,
    into: NodeId,
    base: usize,
    parent: NodeId,
    index: usize,
) -> Point
    requires { point.offset < 2 ^ 64 → (after_merge from into base parent index point).offset
        < 2 ^ 64 }
    ensures { result ≡ after_merge from into base parent index point }
{
    let Point { node, offset } = point;
    if node == from {
        return Point {
            node: into,
            offset: base + offset,
        };
    }
    if node == parent && offset == index {
        return Point {
            node: into,
            offset: base,
        };
    }
    point
}
