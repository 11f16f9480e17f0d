//! Items by number, in slots without gaps.

ghost use Rattle.std.specs.Prelude.{◌≡◌, ◌+◌, ◌^◌, ◌<◌, ◌≤◌, ◌∷◌, ◌++◌, [], length, count_by, Some, None, IsSome, is_some, IfSome, OnOk, slice_get, slice_set, swap_remove};
ghost use Rattle.std.specs.Option.{option_copied};
ghost use Rattle.std.specs.Borrow.{sem};
ghost use Rattle.dom_pages.specs.Numbered.{item_at};
ghost use Rattle.dom_slots.specs.Slotted.{slot_at, by_slot, IsSlotted};

use crate::numbers::Numbers;
use std::alloc::{AllocError, Global};
use std::marker::Model;

/// Items by number. Each number has a slot until its item is released, and the items are stored by slot.
///
/// If one is released, the last item moves into its slot. So the table takes memory only for the most items that were stored at once.
#[derive(Drop)]
pub struct NumberedItems<T> {
    slots: Numbers,
    items: Vec<T>,
}

impl<T> Model for NumberedItems<T> {
    ghost use Rattle.std.specs.Prelude.{◌≡◌, ◌-◌, length, min, vec_capacity};
    ghost use Rattle.dom_slots.specs.Slotted.{SlottedItems};

    ghost Value = { SlottedItems T };

    ghost view = { λ s. record {
      slots = s.slots.slots;
      items = s.items.items;
      room = min s.slots.room (vec_capacity s.items - length s.items.items);
    } };

    ghost invariant = { λ s. length s.items.items ≡ length s.slots.numbers };
}

impl<T> NumberedItems<T> {
    ghost use Rattle.dom_slots.specs.Borrows.{lends_in_slot};

    /// Returns a table without items. It takes no memory.
    pub fn new(alloc: Global) -> NumberedItems<T>
        ensures { result ≡ record { slots = []; items = []; room = 0 } }
    {
        NumberedItems {
            slots: Numbers::new(alloc),
            items: Vec::new(alloc),
        }
    }

    /// Returns how many numbers were ever given.
    pub fn made(&self) -> u64
        ensures { result ≡ length self.now.slots }
    {
        self.slots.made()
    }

    /// Returns the number of items, which is that of slots.
    pub fn count(&self) -> usize
        ensures slots { result ≡ length self.now.items }
        ensures live { result ≡ count_by is_some (by_slot self.now.slots self.now.items) }
    {
        self.state_law();
        self.items.len()
    }

    /// Returns the slot of a number; none if the number was released, or never given.
    pub fn slot(&self, number: u32) -> Option<usize>
        ensures slot { result ≡ slot_at self.now.slots number }
        ensures within { IfSome result (λ slot. slot < length self.now.items) }
    {
        self.state_law();
        self.slots.slot(number)
    }

    /// Returns whether a number has an item.
    pub fn holds(&self, number: u32) -> bool
        ensures { result ≡ is_some (item_at (by_slot self.now.slots self.now.items) number) }
    {
        self.state_law();
        self.slot(number).is_some()
    }

    /// Returns the item of a number; none if the number was released, or never given.
    pub fn get(&self, number: u32) -> Option<&T>
        ensures { option_copied result ≡ item_at (by_slot self.now.slots self.now.items) number }
    {
        let slot = self.slot(number)?;
        Some(&self.items[slot])
    }

    /// Returns the items, by slot.
    pub fn items(&self) -> &[T]
        ensures { result.now ≡ self.now.items }
    {
        self.items.as_slice()
    }

    /// Returns the item in a slot, mutably.
    pub fn in_slot_mut(&mut self, slot: usize) -> &mut T
        requires { slot < length self.old.items }
        ensures* writes_back { sem 𝓛 (lends_in_slot T.row self.entry slot result) }
        ensures value { slice_get self.old.items slot ≡ Some result.now }
    {
        &mut self.items[slot]
    }

    /// Reserves room for more items. All their numbers must fit in 32 bits. On an error the old room stays.
    pub fn reserve(&mut self, additional: usize) -> Result<(), AllocError>
        requires { length self.old.slots + additional ≤ 4294967296 }
        ensures room { OnOk result (additional ≤ self.new.room) }
        ensures kept { self.old.room ≤ self.new.room }
        ensures slots { self.new.slots ≡ self.old.slots }
        ensures items { self.new.items ≡ self.old.items }
    {
        self.slots.reserve(additional)?;
        self.items.reserve(additional)?;
        Ok(())
    }

    /// Adds an item with the next number, in the next slot, within reserved room. It takes no memory.
    pub fn push_reserved(&mut self, item: T) -> u32
        requires { 0 < self.old.room }
        ensures number { result ≡ length self.old.slots }
        ensures items { self.new.items ≡ self.old.items ++ item ∷ [] }
        ensures pushed { by_slot self.new.slots self.new.items
            ≡ by_slot self.old.slots self.old.items ++ Some item ∷ [] }
        ensures room { self.old.room ≤ self.new.room + 1 }
    {
        self.slots.state_law();
        let number = self.slots.push_reserved();
        self.items.push_reserved(item);
        number
    }

    /// Releases a number, and returns its slot and its item. The last item moves into the slot. It takes no memory.
    pub fn release(&mut self, number: u32) -> (usize, T)
        requires { IsSome (slot_at self.old.slots number) }
        ensures slot { slot_at self.old.slots number ≡ Some result.0 }
        ensures item { slice_get self.old.items result.0 ≡ Some result.1 }
        ensures items { self.new.items ≡ swap_remove self.old.items result.0 result.1 }
        ensures released { by_slot self.new.slots self.new.items
            ≡ slice_set (by_slot self.old.slots self.old.items) number None }
        ensures room { self.old.room ≤ self.new.room }
    {
        self.slots.state_law();
        let slot = self.slots.release(number);
        let item = self.items.swap_remove(slot);
        (slot, item)
    }

    /// States a law, and does nothing: its contract holds for all slots and items at any time.
    pub fn state_law(&self)
        ensures slotted { IsSlotted self.now.slots self.now.items }
        ensures few { length self.now.slots ≤ 2 ^ 32 }
    {
        self.slots.state_law();
        let _ = &self.items;
    }
}
