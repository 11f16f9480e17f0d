//! The store: a table from slots to places, and the links between the nodes there.
ghost use Rattle.std.specs.Prelude.{◌≡◌, [], length, None, Some, IsSome, is_some, option_map, IfSome, IfOk, OnOk, IfErr, OnErr};
ghost use Rattle.std.specs.Option.{ForSome};

use crate::links::{Refused, Slot};
use crate::node::{Node, alone, value_of};
use crate::place::{Link, Place};
use crate::pool::{NodePtr, Pool, Room};
use crate::steps::{free_slot, lead_back, lead_on, link_at, link_before, recount, write_links};
use std::alloc::Global;
use std::marker::Model;

/// A store of linked nodes, each in a slot of its own, with places as handles. It has at most 4,294,967,295 slots.
///
/// A place leads to its node in one access. It stands for the node's slot as long as that is held, wherever the node is linked. Once the slot is
/// taken, another node may get the place.
///
/// If the store is dropped, it drops each value and frees each node.
pub struct Store<T> {
    table: Vec<Link>,
    free: Vec<u32>,
    pool: Pool<Node<T>>,
    alloc: Global,
}

impl<T> Model for Store<T> {
    ghost use Rattle.dom_links.specs.Placed.{Placed};

    ghost Value = { Placed T };

    ghost use Rattle.std.specs.Vec.{vec_capacity};
    ghost use Rattle.dom_links.specs.ArenaMemory.{arena_of, Keeps};

    ghost view = { λ s. record { arena = arena_of s.table.items s.pool.cells s.free.items; places = s.table.items } };

    ghost invariant = { λ s. Keeps s.table.items s.pool.cells s.free.items (vec_capacity s.free) };
}

impl<T> Store<T> {
    ghost use Rattle.std.specs.Borrow.{sem};
    ghost use Rattle.dom_model.specs.PlainLists.Lists.{head_of, last_of};
    ghost use Rattle.dom_model.specs.Forests.Arena.{entry_at, parent_in, children_in, IsHeld, IsSound, no_slots, next_slot, added, taken};
    ghost use Rattle.dom_links.specs.Placed.{slot_of, slots_of, entry_behind, parent_at, children_at, next_at, previous_at, HasParent, HasNoParent, IsChildOf, IsUnder, linked_at, unlinked_at, IsPlaced, KeepsPlaces, KeepsPlacesBut};
    ghost use Rattle.dom_links.specs.Borrows.{lends_placed};

    /// Returns a store without slots. It takes no memory.
    pub fn new(alloc: Global) -> Store<T>
        ensures { result.arena ≡ no_slots }
    {
        Store {
            table: Vec::new(alloc),
            free: Vec::new(alloc),
            pool: Pool::new(),
            alloc,
        }
    }

    /// Stores a value in a slot of its own, without links.
    ///
    /// Fails if it is out of memory, or if all 4,294,967,295 slots are held.
    pub fn add(&mut self, value: T) -> Result<Slot, Refused<T>>
        ensures slot { IfOk result (λ slot. slot ≡ next_slot self.old.arena) }
        ensures fresh { IfOk result (λ slot. entry_at self.old.arena slot ≡ None) }
        ensures added { OnOk result (self.new.arena ≡ added self.old.arena value) }
        ensures kept { OnOk result (KeepsPlaces self.old self.new) }
        ensures value_returned { IfErr result (λ refused. refused.value ≡ value) }
        ensures unchanged { OnErr result (self.new ≡ self.old) }
    {
        let room = match Room::take(self.alloc) {
            Ok(room) => room,
            Err(_) => return Err(Refused { value }),
        };
        let Some(index) = free_slot(&mut self.table, &mut self.free) else {
            room.free();
            return Err(Refused { value });
        };
        let node = self.pool.put(room, alone(index, value));
        self.table[index as usize] = Link::to(Place::at(node.ptr));
        Ok(Slot::at(index as usize))
    }

    pub fn holds(&self, slot: Slot) -> bool
        ensures { result ≡ is_some (entry_at self.now.arena slot) }
    {
        let index = slot.number();
        index < self.table.len() && link_at(&self.table, index).get().is_some()
    }

    /// Returns the place of a slot's node.
    pub fn place(&self, slot: Slot) -> Place
        requires { IsHeld self.now.arena slot }
        ensures slot { slot_of self.now result ≡ slot }
        ensures placed { IsPlaced self.now result }
    {
        link_at(&self.table, slot.number()).get().unwrap()
    }

    /// Returns the place of a slot; none for none.
    pub fn link_for(&self, slot: Option<Slot>) -> Link
        requires { ForSome slot (λ n. IsHeld self.now.arena n) }
        ensures slot { slots_of self.now result ≡ slot }
        ensures placed { ForSome result (λ p. IsPlaced self.now p) }
    {
        match slot {
            Some(slot) => Link::to(self.place(slot)),
            None => Link::none(),
        }
    }

    /// Returns the slot of a place.
    pub fn slot(&self, place: Place) -> Slot
        requires { IsPlaced self.now place }
        ensures { result ≡ slot_of self.now place }
    {
        Slot::at(self.pool.get(place.node()).slot as usize)
    }

    /// Returns the slot of the place that a link leads to, if any.
    pub fn slot_for(&self, link: Link) -> Option<Slot>
        requires { ForSome link (λ p. IsPlaced self.now p) }
        ensures { result ≡ slots_of self.now link }
    {
        match link.get() {
            Some(place) => Some(self.slot(place)),
            None => None,
        }
    }

    pub fn parent(&self, place: Place) -> Link
        requires { IsPlaced self.now place }
        ensures slot { slots_of self.now result ≡ parent_at self.now place }
        ensures placed { ForSome result (λ p. IsPlaced self.now p) }
    {
        self.pool.get(place.node()).parent
    }

    /// Returns the first child.
    pub fn first(&self, place: Place) -> Link
        requires { IsPlaced self.now place }
        ensures slot { slots_of self.now result ≡ head_of (children_at self.now place) }
        ensures placed { ForSome result (λ p. IsPlaced self.now p) }
    {
        self.pool.get(place.node()).first
    }

    /// Returns the last child.
    pub fn last(&self, place: Place) -> Link
        requires { IsPlaced self.now place }
        ensures slot { slots_of self.now result ≡ last_of (children_at self.now place) }
        ensures placed { ForSome result (λ p. IsPlaced self.now p) }
    {
        self.pool.get(place.node()).last
    }

    /// Returns the next sibling.
    pub fn next(&self, place: Place) -> Link
        requires { IsPlaced self.now place }
        ensures slot { slots_of self.now result ≡ next_at self.now place }
        ensures placed { ForSome result (λ p. IsPlaced self.now p) }
    {
        self.pool.get(place.node()).next
    }

    /// Returns the previous sibling.
    pub fn prev(&self, place: Place) -> Link
        requires { IsPlaced self.now place }
        ensures slot { slots_of self.now result ≡ previous_at self.now place }
        ensures placed { ForSome result (λ p. IsPlaced self.now p) }
    {
        self.pool.get(place.node()).prev
    }

    /// Returns the number of children, in constant time.
    pub fn count(&self, place: Place) -> u32
        requires { IsPlaced self.now place }
        ensures { result ≡ length (children_at self.now place) }
    {
        self.pool.get(place.node()).count
    }

    pub fn value(&self, place: Place) -> &T
        requires { IsPlaced self.now place }
        ensures { IfSome (entry_behind self.now place) (λ e. result.now ≡ e.value) }
    {
        &self.pool.get(place.node()).value
    }

    pub fn value_mut(&mut self, place: Place) -> &mut T
        requires { IsPlaced self.old place }
        ensures* writes_back { sem 𝓛 (lends_placed T.row self.entry place result) }
        ensures value { IfSome (entry_behind self.old place) (λ e. result.now ≡ e.value) }
    {
        let node = self.pool.get_mut(place.node());
        &mut node.value
    }

    /// Inserts a node into a parent's children before `before`, or as the last.
    pub fn link(&mut self, parent: Place, child: Place, before: Link)
        requires parent_placed { IsPlaced self.old parent }
        requires child_placed { IsPlaced self.old child }
        requires no_parent { HasNoParent self.old child }
        requires no_cycle { ¬ IsUnder self.old child parent }
        requires before_placed { ForSome before (IsPlaced self.old) }
        requires before_under { ForSome before (IsChildOf self.old parent) }
        ensures linked { self.new.arena ≡ linked_at self.old parent child before }
        ensures places { self.new.places ≡ self.old.places }
        ensures kept { KeepsPlaces self.old self.new }
    {
        let top = parent.node().ptr;
        let link = Link::to(child);
        let prev = link_before(&self.pool, top, before);
        let count = self.pool.get(NodePtr { ptr: top }).count + 1;
        lead_on(&mut self.pool, top, prev, link);
        lead_back(&mut self.pool, top, before, link);
        recount(&mut self.pool, top, count);
        write_links(
            &mut self.pool,
            child.node().ptr,
            Link::to(parent),
            prev,
            before,
        );
    }

    /// Removes a node from its parent's children. Its own children stay linked to it.
    pub fn unlink(&mut self, child: Place)
        requires placed { IsPlaced self.old child }
        requires has_parent { HasParent self.old child }
        ensures unlinked { self.new.arena ≡ unlinked_at self.old child }
        ensures places { self.new.places ≡ self.old.places }
        ensures kept { KeepsPlaces self.old self.new }
    {
        let ptr = child.node().ptr;
        let node = self.pool.get(NodePtr { ptr });
        let top: *mut Node<T> = node.parent.ptr().unwrap();
        let prev = node.prev;
        let next = node.next;
        let count = self.pool.get(NodePtr { ptr: top }).count - 1;
        lead_on(&mut self.pool, top, prev, next);
        lead_back(&mut self.pool, top, next, prev);
        recount(&mut self.pool, top, count);
        let none = Link::none();
        write_links(&mut self.pool, ptr, none, none, none);
    }

    /// Empties a slot, and returns its value. The next `add` fills the slot. It takes no memory.
    pub fn take(&mut self, slot: Slot) -> T
        requires no_parent { parent_in (entry_at self.old.arena slot) ≡ None }
        requires no_child { children_in (entry_at self.old.arena slot) ≡ [] }
        requires held { IsHeld self.old.arena slot }
        ensures value { IfSome (entry_at self.old.arena slot) (λ e. result ≡ e.value) }
        ensures taken { self.new.arena ≡ taken self.old.arena slot }
        ensures kept { KeepsPlacesBut slot self.old self.new }
    {
        let index = slot.number();
        let ptr: *mut Node<T> = link_at(&self.table, index).ptr().unwrap();
        let (node, room) = self.pool.take(NodePtr { ptr }, self.alloc);
        room.free();
        self.table[index] = Link::none();
        self.free.push_reserved(node.slot);
        value_of(node)
    }

    /// States a law, and does nothing: its contract holds for any store.
    pub fn state_law(&self)
        ensures { IsSound self.now.arena }
    {
        let _ = &self.table;
    }
}

impl<T: Drop> Drop for Store<T> {
    fn drop(self) {
        let Store {
            mut table,
            free: _,
            mut pool,
            alloc,
        } = self;
        while let Some(link) = table.pop() {
            if let Some(ptr) = link.ptr() {
                let (node, room) = pool.take(NodePtr { ptr }, alloc);
                room.free();
                drop(node);
            }
        }
        pool.close();
    }
}
