//! Live ranges: making, reading and releasing them.

ghost use Rattle.std.specs.Prelude.{◌≡◌, ◌+◌, ◌^◌, ◌<◌, ◌≤◌, [], ◌∷◌, ◌++◌, length, count_by, slice_set, Some, None, IsSome, is_some, true, false, IfOk, OnOk, OnErr};
ghost use Rattle.std.specs.List.{list_any};
ghost use Rattle.dom_model.specs.PlainLists.Lists.{among};
ghost use Rattle.dom_model.specs.Forests.Forest.{HasNode, inclusive_descendants};
ghost use Rattle.dom_model.specs.Worlds.World.{Range};
ghost use Rattle.dom_ranges.specs.Tables.{covers, covered_to, uncovered, IsCovered, AreCovered, range_in, with_range_set, without_range, live_nodes, IsRangeIn};

use crate::range_ends::{self, Ends};
use crate::range_id::RangeId;
use dom_point::Point;
use dom_slots::Numbers;
use dom_tree::{Body, NodeId, Tree};
use std::alloc::{AllocError, Global};
use std::marker::Model;

/// The live ranges of a session (DOM Standard, "Live ranges"), with their ends stored by node.
///
/// A live number leads to a slot. The range in slot `s` starts at end `2 * s` and ends at the next. If a range is released, the one in the last slot
/// moves into its slot.
#[derive(Drop)]
pub struct Ranges {
    pub(crate) chains: Ends,
    pub(crate) slots: Numbers,
}

impl Model for Ranges {
    ghost use Rattle.std.specs.Prelude.{◌≡◌, ◌*◌, length};
    ghost use Rattle.dom_ranges.specs.Ends.{table_of};
    ghost use Rattle.dom_ranges.specs.Tables.{RangeTable};

    ghost Value = { RangeTable };

    ghost view = { λ a. table_of a.slots.slots a.chains };

    ghost invariant = { λ a. length a.chains.items ≡ 2 * length a.slots.numbers };
}

impl Ranges {
    /// Returns a table without ranges. It takes no memory.
    pub fn new(alloc: Global) -> Ranges
        ensures { result ≡ record { ranges = []; covered = [] } }
    {
        Ranges {
            chains: Ends::new(alloc),
            slots: Numbers::new(alloc),
        }
    }

    /// Reserves room for ends in nodes with numbers below `made`. A forgotten node stays forgotten.
    pub fn cover(&mut self, made: u64) -> Result<(), AllocError>
        requires { made ≤ 4294967295 }
        ensures ok { OnOk result (self.new ≡ record self.old
            { covered = covered_to made self.old.covered }) }
        ensures err { OnErr result (self.new ≡ self.old) }
    {
        self.chains.cover(made)
    }

    /// Returns whether ends may be stored for a node: it was covered, and not forgotten since.
    pub fn is_covered(&self, node: NodeId) -> bool
        ensures { result ≡ covers self.now.covered node }
    {
        self.chains.is_covered(node.number())
    }

    // Frees the room for ends in a node.
    fn forget_one(&mut self, node: NodeId)
        requires { among node (live_nodes self.old) ≡ false }
        ensures { self.new ≡ record self.old { covered = slice_set self.old.covered node false } }
    {
        self.slots.state_law();
        self.chains.forget(node.number());
    }

    /// Frees the room for ends in the nodes of a tree that is about to be discarded.
    pub fn forget<X>(&mut self, tree: &Tree<X>, top: NodeId)
        requires held { HasNode tree.now.forest top }
        requires empty { list_any (λ m. among m (inclusive_descendants tree.now.forest top))
            (live_nodes self.old) ≡ false }
        ensures { self.new ≡ record self.old {
          covered = uncovered
              (inclusive_descendants tree.now.forest top) self.old.covered;
        } }
    {
        tree.state_law();
        let mut here = top;
        loop {
            self.forget_one(here);
            let Some(next) = tree.next_inside(top, here) else {
                return;
            };
            here = next;
        }
    }

    /// Makes a live range.
    pub fn make<X: Body>(
        &mut self,
        tree: &Tree<X>,
        start: Point,
        end: Point,
    ) -> Result<RangeId, AllocError>
        requires room { length self.old.ranges < 4294967295 }
        requires start_covered { IsCovered self.old start.node }
        requires end_covered { IsCovered self.old end.node }
        requires in_order { IsRangeIn X.length tree.now.forest
            (record { start = start; end = end }) }
        ensures number { IfOk result (λ r. r ≡ length self.old.ranges) }
        ensures made { OnOk result (self.new ≡ record self.old {
          ranges = self.old.ranges
              ++ Some (record { start = start; end = end }) ∷ [];
        }) }
        ensures unchanged { OnErr result (self.new ≡ self.old) }
    {
        // only what is asked of the two points names the tree
        let _ = tree;
        self.slots.state_law();
        self.slots.reserve(1)?;
        self.chains.reserve(2)?;
        range_ends::push_reserved(&mut self.chains, start);
        range_ends::push_reserved(&mut self.chains, end);
        Ok(RangeId::new(self.slots.push_reserved()))
    }

    /// Returns how many ranges were ever made.
    pub fn made(&self) -> u64
        ensures { result ≡ length self.now.ranges }
    {
        self.slots.made()
    }

    /// Returns the number of live ranges, in constant time.
    pub fn count(&self) -> usize
        ensures { result ≡ count_by is_some self.now.ranges }
    {
        self.slots.state_law();
        self.slots.count()
    }

    /// Returns whether a number is that of a live range.
    pub fn holds(&self, r: RangeId) -> bool
        ensures { result ≡ is_some (range_in self.now r) }
    {
        self.slots.state_law();
        self.slots.slot(r.number()).is_some()
    }

    /// Returns the start and the end of a range.
    pub fn ends(&self, r: RangeId) -> (Point, Point)
        requires { IsSome (range_in self.now r) }
        ensures ends { range_in self.now r ≡ Some (record { start = result.0; end = result.1 }) }
        ensures start_covered { IsCovered self.now result.0.node }
        ensures end_covered { IsCovered self.now result.1.node }
    {
        self.slots.state_law();
        self.chains.state_law();
        let slot = self.slots.slot(r.number()).unwrap();
        let first = 2 * slot;
        let start = range_ends::point(&self.chains, first);
        let end = range_ends::point(&self.chains, first + 1);
        (start, end)
    }

    /// Releases a range. Its number is not reused.
    pub fn release(&mut self, r: RangeId)
        requires { IsSome (range_in self.old r) }
        ensures { self.new ≡ without_range r self.old }
    {
        self.slots.state_law();
        self.chains.state_law();
        let slot = self.slots.release(r.number());
        let first = 2 * slot;
        self.chains.swap_remove(first + 1);
        self.chains.swap_remove(first);
    }

    // Moves both ends of a range.
    pub(crate) fn write(&mut self, r: RangeId, start: Point, end: Point)
        requires held { IsSome (range_in self.old r) }
        requires start_covered { IsCovered self.old start.node }
        requires end_covered { IsCovered self.old end.node }
        ensures { self.new ≡ with_range_set r (record { start = start; end = end }) self.old }
    {
        self.slots.state_law();
        self.chains.state_law();
        let slot = self.slots.slot(r.number()).unwrap();
        let first = 2 * slot;
        range_ends::place(&mut self.chains, first, start);
        range_ends::place(&mut self.chains, first + 1, end);
    }

    /// Returns whether a node has an end of a live range.
    pub fn stands_in(&self, node: NodeId) -> bool
        ensures { result ≡ among node (live_nodes self.now) }
    {
        self.slots.state_law();
        self.chains.has(node.number())
    }

    /// States a law, and does nothing: its contract holds for all live ranges at any time.
    ///
    /// The ends in a node are its bucket, each once, and a node that is not covered has none. So if [`Ranges::stands_in`] returns true,
    /// [`Ranges::is_covered`] does too. Each live range has two ends in a table of fewer than 2 ^ 33.
    pub fn state_law(&self)
        ensures covered { AreCovered self.now }
        ensures few { count_by is_some self.now.ranges ≤ 2 ^ 32 }
    {
        self.slots.state_law();
        self.chains.state_law();
    }

    // Returns whether no range is live.
    pub(crate) fn is_idle(&self) -> bool
        ensures { result ≡ true → live_nodes self.now ≡ [] }
    {
        self.count() == 0
    }

    // Bounds a walk inside a subtree, after which each end is asked for its node instead: whichever way is shorter finishes.
    pub(crate) fn steps<X>(&self, tree: &Tree<X>, top: NodeId) -> usize
        requires { HasNode tree.now.forest top }
    {
        tree.steps_inside(top, |index| range_ends::node(&self.chains, index))
    }

    /// Returns whether an end of a live range is inside a subtree.
    ///
    /// Walks the subtree, or climbs from each end if that takes fewer steps.
    pub fn refers<X>(&self, tree: &Tree<X>, top: NodeId) -> bool
        requires { HasNode tree.now.forest top }
        ensures { result ≡ list_any (λ m. among m (inclusive_descendants tree.now.forest top))
            (live_nodes self.now) }
    {
        self.refers_within(tree, top, self.steps(tree, top))
    }

    // Walks at most `steps` nodes of the subtree, and visits each end if there are more.
    pub(crate) fn refers_within<X>(&self, tree: &Tree<X>, top: NodeId, steps: usize) -> bool
        requires { HasNode tree.now.forest top }
        ensures { result ≡ list_any (λ m. among m (inclusive_descendants tree.now.forest top))
            (live_nodes self.now) }
    {
        if self.is_idle() {
            return false;
        }
        self.slots.state_law();
        match tree.any_inside(top, steps, |node| self.stands_in(node)) {
            Some(answer) => answer,
            None => range_ends::refer(&self.chains, tree, top),
        }
    }
}
