//! How changes of the tree adjust live ranges (DOM Standard, "Live ranges"). Nothing here takes memory, and ends elsewhere are not visited.

ghost use Rattle.std.specs.Prelude.{◌≡◌, ◌<◌, ◌^◌, IfSome, IsSomeAnd};
ghost use Rattle.dom_model.specs.Forests.Forest.{HasNode, parent_of, index_of, inclusive_descendants};
ghost use Rattle.dom_model.specs.BoundaryPoints.Points.{after_gap, after_splice, after_split, after_merge, after_removal, map_ranges};
ghost use Rattle.dom_ranges.specs.Tables.{IsCovered, OffsetsFit, moved_in, on_node};

use crate::live_ranges::Ranges;
use crate::range_ends;
use crate::shift::Shift;
use dom_point::Point;
use dom_tree::{NodeId, Tree};

impl Ranges {
    /// Adjusts ends for `count` nodes inserted among a parent's children at the index `at`.
    pub fn gap(&mut self, parent: NodeId, at: usize, count: usize)
        requires { OffsetsFit (after_gap parent at count) self.old.ranges }
        ensures { self.new ≡ record self.old {
          ranges = map_ranges (after_gap parent at count)
              self.old.ranges;
        } }
    {
        self.spliced(parent, at, 0, count);
    }

    /// Adjusts ends for `count` units of a node's data at the offset `at` that were replaced by `added` units.
    pub fn spliced(&mut self, node: NodeId, at: usize, count: usize, added: usize)
        requires { OffsetsFit (after_splice node at count added) self.old.ranges }
        ensures { self.new ≡ record self.old {
          ranges = map_ranges
              (after_splice node at count added) self.old.ranges;
        } }
    {
        self.slots.state_law();
        self.chains.state_law();
        let shift = Shift::Splice {
            inside: node,
            at,
            count,
            added,
        };
        range_ends::shift(&mut self.chains, node, &shift);
    }

    /// Adjusts ends for a Text, the parent's child at the index, that was split at an offset. The new Text follows it.
    pub fn was_split(&mut self, node: NodeId, at: usize, new: NodeId, parent: NodeId, index: usize)
        requires fit { OffsetsFit (after_split node at new parent index) self.old.ranges }
        requires new_covered { IsCovered self.old new }
        requires parent_covered { IsCovered self.old parent }
        ensures { self.new ≡ record self.old {
          ranges = map_ranges
              (after_split node at new parent index) self.old.ranges;
        } }
    {
        self.slots.state_law();
        self.chains.state_law();
        let shift = Shift::Split {
            text: node,
            at,
            new,
            parent,
            index,
        };
        range_ends::shift_both(&mut self.chains, parent, node, &shift);
    }

    /// Adjusts ends for a Text, the parent's child at the index, that is merged into another, which had `base` units.
    pub fn merged(&mut self, from: NodeId, into: NodeId, base: usize, parent: NodeId, index: usize)
        requires fit { OffsetsFit (after_merge from into base parent index) self.old.ranges }
        requires into_covered { IsCovered self.old into }
        ensures { self.new ≡ record self.old {
          ranges = map_ranges
              (after_merge from into base parent index) self.old.ranges;
        } }
    {
        self.slots.state_law();
        self.chains.state_law();
        let shift = Shift::Merge {
            from,
            into,
            base,
            parent,
            index,
        };
        if into == from {
            range_ends::shift_both(&mut self.chains, from, parent, &shift);
        } else {
            range_ends::shift_both(&mut self.chains, parent, from, &shift);
        }
    }

    // Moves all ends in a node to one point.
    fn gather_at(&mut self, node: NodeId, to: Point)
        requires covered { IsCovered self.old to.node }
        requires fits { to.offset < 2 ^ 64 }
        ensures { self.new ≡ record self.old {
          ranges = map_ranges (on_node node (λ _. to))
              self.old.ranges;
        } }
    {
        range_ends::shift(&mut self.chains, node, &Shift::Gather { to });
    }

    // Moves all ends inside a subtree to one point. Visits each end.
    fn gather_ends<X>(&mut self, tree: &Tree<X>, top: NodeId, to: Point)
        requires covered { IsCovered self.old to.node }
        ensures { self.new ≡ record self.old {
          ranges = map_ranges
              (moved_in (inclusive_descendants tree.now.forest top) to) self.old.ranges;
        } }
    {
        range_ends::gather(&mut self.chains, tree, top, to);
    }

    // Moves all ends inside a subtree to one point. Walks at most `steps` nodes, and visits each end if there are more.
    fn gather<X>(&mut self, tree: &Tree<X>, top: NodeId, steps: usize, to: Point)
        requires held { HasNode tree.now.forest top }
        requires covered { IsCovered self.old to.node }
        requires fits { to.offset < 2 ^ 64 }
        ensures { self.new ≡ record self.old {
          ranges = map_ranges
              (moved_in (inclusive_descendants tree.now.forest top) to) self.old.ranges;
        } }
    {
        tree.state_law();
        let mut here = top;
        for _step in 0..steps {
            self.gather_at(here, to);
            match tree.next_inside(top, here) {
                Some(next) => here = next,
                None => return,
            }
        }
        self.gather_ends(tree, top, to);
    }

    /// Adjusts ends for a node that is about to be removed from its parent.
    pub fn removing<X>(&mut self, tree: &Tree<X>, node: NodeId)
        requires held { HasNode tree.now.forest node }
        requires parent { IsSomeAnd (parent_of tree.now.forest node) (IsCovered self.old) }
        ensures { IfSome (parent_of tree.now.forest node)
            (λ p. self.new ≡ record self.old {
              ranges = map_ranges (after_removal (inclusive_descendants tree.now.forest node) p
                  (index_of tree.now.forest node)) self.old.ranges;
            }) }
    {
        if self.is_idle() {
            return;
        }
        let parent = tree.parent(node).unwrap();
        let steps = self.steps(tree, node);
        let inside = self.refers_within(tree, node, steps);
        if !inside && !self.stands_in(parent) {
            return;
        }
        let index = tree.index(node);
        self.spliced(parent, index, 1, 0);
        if inside {
            self.gather(
                tree,
                node,
                steps,
                Point {
                    node: parent,
                    offset: index,
                },
            );
        }
    }
}
