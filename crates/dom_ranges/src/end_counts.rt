//! How many ends of static ranges each node has.

ghost use Rattle.std.specs.Prelude.{◌≡◌, ℕ, ◌+◌, ◌^◌, ◌<◌, ◌≤◌, nat_lt, [], OnOk};
ghost use Rattle.dom_ranges.specs.StaticEnds.{end_count_at, with_end};

use dom_tree::NodeId;
use indexmap::IndexMap;
use std::alloc::{AllocError, Global};
use std::marker::Model;

/// The number of ends by node. Takes memory only for nodes with ends.
#[derive(Drop)]
pub(crate) struct EndCounts {
    by_node: IndexMap<u32, usize>,
}

impl Model for EndCounts {
    ghost use Rattle.indexmap.specs.IndexMap.{spare};
    ghost use Rattle.dom_ranges.specs.StaticEnds.{CountedEnds, AreCounts};

    ghost Value = { CountedEnds };

    ghost view = { λ a. record { counts = a.by_node.entries; room = spare a.by_node } };

    ghost invariant = { λ a. AreCounts a.by_node.entries };
}

impl EndCounts {
    /// Returns counts without ends. It takes no memory.
    pub(crate) fn new(alloc: Global) -> EndCounts
        ensures { result.counts ≡ [] }
    {
        EndCounts {
            by_node: IndexMap::new(alloc),
        }
    }

    /// Reserves room for more ends, in any nodes.
    pub(crate) fn reserve(&mut self, additional: usize) -> Result<(), AllocError>
        ensures room { OnOk result (additional ≤ self.new.room) }
        ensures counts { self.new.counts ≡ self.old.counts }
    {
        self.by_node.reserve(additional)
    }

    // Returns the number of ends in a node.
    fn count(&self, node: NodeId) -> usize
        ensures { result ≡ end_count_at self.now.counts node }
    {
        match self.by_node.get(&node.number()) {
            Some(count) => *count,
            None => 0,
        }
    }

    /// Returns whether a node has an end.
    pub(crate) fn stands_in(&self, node: NodeId) -> bool
        ensures { result ≡ nat_lt 0 (end_count_at self.now.counts node) }
    {
        self.by_node.contains_key(&node.number())
    }

    /// Counts one more end in a node, within reserved room. It takes no memory.
    pub(crate) fn add(&mut self, node: NodeId)
        requires room { 0 < self.old.room }
        requires few { end_count_at self.old.counts node + 1 < 2 ^ 64 }
        ensures added { (n : ℕ) → end_count_at self.new.counts n ≡ with_end node self.old.counts n }
        ensures room { self.old.room ≤ self.new.room + 1 }
    {
        let count = self.count(node) + 1;
        self.by_node.insert(node.number(), count).unwrap();
    }

    /// Counts one end less in a node. It takes no memory.
    pub(crate) fn take(&mut self, node: NodeId)
        requires { 0 < end_count_at self.old.counts node }
        ensures taken { (n : ℕ) → end_count_at self.old.counts n ≡ with_end node self.new.counts n }
    {
        let count = self.count(node) - 1;
        if count == 0 {
            self.by_node.swap_remove(&node.number());
        } else {
            self.by_node.insert(node.number(), count).unwrap();
        }
    }
}
