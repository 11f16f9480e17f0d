//! The store with slots alone as handles: its interface has no places.
ghost use Rattle.std.specs.Prelude.{◌≡◌, ℕ, ◌^◌, ◌<◌, [], length, None, Some, IsSome, is_some, IfSome, IfOk, OnOk, IfErr, OnErr};
ghost use Rattle.std.specs.Option.{ForSome};

use crate::store::Store;
use std::alloc::Global;
use std::marker::Model;

/// A slot of a store: a whole number, which `add` returns.
#[derive(Clone, Copy, Debug, PartialEq, Eq)]
pub struct Slot {
    index: usize,
}

impl Model for Slot {
    ghost Value = { ℕ };

    ghost view = { λ s. s.index };

    ghost invariant = { λ s. s.index < 2 ^ 64 };

    ghost inverse = { λ n. record { index = n } };
}

impl Slot {
    /// Returns the slot with a number, whether or not a store has it.
    pub fn at(index: usize) -> Slot
        ensures { result ≡ index }
    {
        Slot { index }
    }

    /// Returns the number.
    pub fn number(self) -> usize
        ensures { result ≡ self }
    {
        self.index
    }
}

/// An error with the value that could not be stored.
#[derive(Debug, Drop)]
pub struct Refused<T> {
    pub value: T,
}

/// A store of linked nodes, each in a slot of its own. It has at most 4,294,967,295 slots.
///
/// If it is dropped, it drops each value and frees each node.
#[derive(Drop)]
pub struct Links<T> {
    store: Store<T>,
}

impl<T> Model for Links<T> {
    ghost use Rattle.dom_model.specs.Forests.Arena.{Arena};

    ghost Value = { Arena T };

    ghost view = { λ l. l.store.arena };
}

impl<T> Links<T> {
    ghost use Rattle.std.specs.Borrow.{sem};
    ghost use Rattle.dom_model.specs.PlainLists.Lists.{head_of, last_of};
    ghost use Rattle.dom_model.specs.Forests.Arena.{entry_at, parent_in, children_in, next_in, previous_in, IsHeld, IsSound, StandsUnder, no_slots, next_slot, added, linked, unlinked, taken};
    ghost use Rattle.dom_links.specs.Borrows.{lends_value};

    /// Returns a store without slots. It takes no memory.
    pub fn new(alloc: Global) -> Links<T>
        ensures { result ≡ no_slots }
    {
        Links {
            store: Store::new(alloc),
        }
    }

    /// Stores a value in a slot of its own, without links.
    ///
    /// Fails if it is out of memory, or if all 4,294,967,295 slots are held.
    pub fn add(&mut self, value: T) -> Result<Slot, Refused<T>>
        ensures slot { IfOk result (λ slot. slot ≡ next_slot self.old) }
        ensures fresh { IfOk result (λ slot. entry_at self.old slot ≡ None) }
        ensures added { OnOk result (self.new ≡ added self.old value) }
        ensures value_returned { IfErr result (λ refused. refused.value ≡ value) }
        ensures unchanged { OnErr result (self.new ≡ self.old) }
    {
        self.store.add(value)
    }

    pub fn holds(&self, slot: Slot) -> bool
        ensures { result ≡ is_some (entry_at self.now slot) }
    {
        self.store.holds(slot)
    }

    pub fn parent(&self, slot: Slot) -> Option<Slot>
        requires { IsHeld self.now slot }
        ensures { result ≡ parent_in (entry_at self.now slot) }
    {
        let link = self.store.parent(self.store.place(slot));
        self.store.slot_for(link)
    }

    pub fn first(&self, slot: Slot) -> Option<Slot>
        requires { IsHeld self.now slot }
        ensures { result ≡ head_of (children_in (entry_at self.now slot)) }
    {
        let link = self.store.first(self.store.place(slot));
        self.store.slot_for(link)
    }

    pub fn last(&self, slot: Slot) -> Option<Slot>
        requires { IsHeld self.now slot }
        ensures { result ≡ last_of (children_in (entry_at self.now slot)) }
    {
        let link = self.store.last(self.store.place(slot));
        self.store.slot_for(link)
    }

    /// Returns the next sibling.
    pub fn next(&self, slot: Slot) -> Option<Slot>
        requires { IsHeld self.now slot }
        ensures { result ≡ next_in (entry_at self.now) slot }
    {
        let link = self.store.next(self.store.place(slot));
        self.store.slot_for(link)
    }

    /// Returns the previous sibling.
    pub fn prev(&self, slot: Slot) -> Option<Slot>
        requires { IsHeld self.now slot }
        ensures { result ≡ previous_in (entry_at self.now) slot }
    {
        let link = self.store.prev(self.store.place(slot));
        self.store.slot_for(link)
    }

    /// Returns the number of children, in constant time.
    pub fn count(&self, slot: Slot) -> usize
        requires { IsHeld self.now slot }
        ensures { result ≡ length (children_in (entry_at self.now slot)) }
    {
        self.store.count(self.store.place(slot)) as usize
    }

    pub fn value(&self, slot: Slot) -> &T
        requires { IsHeld self.now slot }
        ensures { IfSome (entry_at self.now slot) (λ e. result.now ≡ e.value) }
    {
        self.store.value(self.store.place(slot))
    }

    pub fn value_mut(&mut self, slot: Slot) -> &mut T
        requires { IsHeld self.old slot }
        ensures* writes_back { sem 𝓛 (lends_value T.row self.entry slot result) }
        ensures value { IfSome (entry_at self.old slot) (λ e. result.now ≡ e.value) }
    {
        let place = self.store.place(slot);
        self.store.value_mut(place)
    }

    /// Inserts a node into a parent's children before `before`, or as the last.
    pub fn link(&mut self, parent: Slot, child: Slot, before: Option<Slot>)
        requires parent_held { IsHeld self.old parent }
        requires child_held { IsHeld self.old child }
        requires no_parent { parent_in (entry_at self.old child) ≡ None }
        requires no_cycle { ¬ StandsUnder (entry_at self.old) child parent }
        requires before_under { ForSome before (λ b. parent_in (entry_at self.old b)
            ≡ Some parent) }
        ensures { self.new ≡ linked self.old parent child before }
    {
        let top = self.store.place(parent);
        let node = self.store.place(child);
        let next = self.store.link_for(before);
        self.store.link(top, node, next);
    }

    /// Removes a node from its parent's children. Its own children stay linked to it.
    pub fn unlink(&mut self, child: Slot)
        requires { IsSome (parent_in (entry_at self.old child)) }
        ensures { self.new ≡ unlinked self.old child }
    {
        let place = self.store.place(child);
        self.store.unlink(place);
    }

    /// Empties a slot, and returns its value. The next `add` fills the slot. It takes no memory.
    pub fn take(&mut self, slot: Slot) -> T
        requires no_parent { parent_in (entry_at self.old slot) ≡ None }
        requires no_child { children_in (entry_at self.old slot) ≡ [] }
        requires held { IsHeld self.old slot }
        ensures value { IfSome (entry_at self.old slot) (λ e. result ≡ e.value) }
        ensures taken { self.new ≡ taken self.old slot }
    {
        self.store.take(slot)
    }

    /// States a law, and does nothing: its contract holds for any store.
    pub fn state_law(&self)
        ensures { IsSound self.now }
    {
        self.store.state_law();
    }
}
