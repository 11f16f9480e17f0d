//! Items by number, found by their positions. The numbers have no gaps.

ghost use Rattle.std.specs.Prelude.{◌≡◌, ℕ, ◌+◌, ◌<◌, ◌≤◌, [], ◌∷◌, ◌++◌, length, slice_set, swap_remove, Some, None, IsSome, IfSome, IfNone, IfOk, OnOk, OnErr};
ghost use Rattle.std.specs.List.{list_any};
ghost use Rattle.dom_model.specs.PlainLists.Lists.{is_number};
ghost use Rattle.dom_traverse.specs.PositionsByNode.{node_in, bucket_of, AreSpread};

use dom_chains::{Chains, HeadsInList};
use dom_tree::NodeId;
use std::alloc::{AllocError, Global};
use std::marker::Model;

// The position of each item, none while it is marked as moved. Several steps in a row change nothing here.
//
// Nodes share buckets by the remainders of their numbers. There are more buckets than items, so few positions share one. Finding the items at a node
// takes a time that grows with its bucket. Moving an item takes constant time and no memory.
#[derive(Drop)]
pub(crate) struct PositionsByNode {
    // positions, by buckets
    chains: Chains<Option<u32>, HeadsInList>,
}

impl Model for PositionsByNode {
    ghost use Rattle.std.specs.Prelude.{ℕ, List, Option};
    ghost use Rattle.dom_traverse.specs.PositionsByNode.{item_nodes, AreSpread};

    ghost Value = { List (Option ℕ) };

    ghost view = { λ w. item_nodes w.chains.items };

    ghost invariant = { λ w. AreSpread (item_nodes w.chains.items) w.chains };
}

// Returns the bucket of a node among a number of them; the first is for items marked as moved.
fn place_of(count: usize, node: Option<u32>) -> u32
    requires some { 1 < count }
    requires told { count ≤ 4294967296 }
    ensures place { result ≡ bucket_of count node }
    ensures there { result < count }
{
    match node {
        Some(node) => (1 + node as usize % (count - 1)) as u32,
        None => 0,
    }
}

impl PositionsByNode {
    // Returns a table without items. It takes no memory.
    pub(crate) fn new(alloc: Global) -> PositionsByNode
        ensures { result ≡ [] }
    {
        PositionsByNode {
            chains: Chains::<Option<u32>, HeadsInList>::new(alloc),
        }
    }

    // Returns whether an item is at the node.
    pub(crate) fn names(&self, node: NodeId) -> bool
        ensures { result ≡ list_any (λ o. is_number o node) self.now }
    {
        if self.chains.count() == 0 {
            return false;
        }
        let number = Some(node.number());
        let place = place_of(self.chains.key_count(), number);
        self.chains.any_at(place, |stood| stood == number)
    }

    // Returns some item at the node or in its bucket; none only if no item is at the node.
    pub(crate) fn first(&self, node: NodeId) -> Option<usize>
        ensures some { IfSome result (λ id. IsSome (node_in self.now id)) }
        ensures none { IfNone result ((e : ℕ) → node_in self.now e ≡ Some node → ⊥) }
    {
        if self.chains.count() == 0 {
            return None;
        }
        let place = place_of(self.chains.key_count(), Some(node.number()));
        self.chains.first(place)
    }

    // Returns some item that is marked as moved.
    pub(crate) fn waiting(&self) -> Option<usize>
        ensures within { IfSome result (λ id. id < length self.now) }
        ensures some { IfSome result (λ id. node_in self.now id ≡ None) }
        ensures none { IfNone result ((e : ℕ) → e < length self.now → IsSome (node_in self.now e)) }
    {
        self.chains.first(0)
    }

    // Returns the position of an item.
    fn node(&self, id: usize) -> Option<u32>
        ensures { result ≡ node_in self.now id }
    {
        let (_, node) = self.chains.get(id)?;
        node
    }

    // Moves an item to a node, or marks it as moved.
    fn write(&mut self, id: usize, node: Option<u32>)
        requires { id < length self.old }
        ensures { self.new ≡ slice_set self.old id node }
    {
        let place = place_of(self.chains.key_count(), node);
        self.chains.place(id, place, node);
    }

    // Moves an item to a node.
    pub(crate) fn set(&mut self, id: usize, node: NodeId)
        requires { id < length self.old }
        ensures { self.new ≡ slice_set self.old id (Some node) }
    {
        self.write(id, Some(node.number()));
    }

    // Marks an item as moved, unless it is.
    pub(crate) fn leave(&mut self, id: usize)
        requires { id < length self.old }
        ensures { self.new ≡ slice_set self.old id None }
    {
        if self.node(id).is_some() {
            self.write(id, None);
        }
    }

    // Removes an item. The last item gets its number.
    pub(crate) fn swap_remove(&mut self, id: usize)
        requires { id < length self.old }
        ensures { self.new ≡ swap_remove self.old id None }
    {
        self.chains.swap_remove(id);
    }

    // Adds an item, which gets the next number.
    pub(crate) fn add(&mut self, alloc: Global, node: NodeId) -> Result<(), AllocError>
        requires { length self.old < 4294967295 }
        ensures added { OnOk result (self.new ≡ self.old ++ Some node ∷ []) }
        ensures unchanged { OnErr result (self.new ≡ self.old) }
    {
        if self.chains.key_count() < self.chains.count() + 2 {
            self.chains = self.spread(alloc)?;
        }
        self.chains.reserve(1)?;
        let number = Some(node.number());
        let place = place_of(self.chains.key_count(), number);
        self.chains.push_reserved(place, number);
        Ok(())
    }

    // Returns the items over twice as many buckets, so that growth takes amortized constant time for each item.
    fn spread(&self, alloc: Global) -> Result<Chains<Option<u32>, HeadsInList>, AllocError>
        requires { length self.now < 4294967295 }
        ensures spread { IfOk result (AreSpread self.now) }
        ensures room { IfOk result (λ c. length self.now + 2 ≤ length c.covered) }
    {
        let count = (2 * self.chains.count() + 2).min(1 << 32);
        let mut chains = Chains::of(alloc, count)?;
        chains.reserve(self.chains.count() + 1)?;
        for id in 0..self.chains.count() {
            let node = self.node(id);
            chains.push_reserved(place_of(count, node), node);
        }
        Ok(chains)
    }
}
