//! The slots of numbers, and the numbers in slots.

ghost use Rattle.std.specs.Prelude.{◌≡◌, ◌+◌, ◌/◌, ◌^◌, ◌<◌, ◌≤◌, ◌∷◌, ◌++◌, [], length, Some, IsSome, is_some, IsTrue, false, OnOk, count_by, slice_get, swap_remove};
ghost use Rattle.dom_pages.specs.Paged.{page_size, IsTakenBack};
ghost use Rattle.dom_slots.specs.Slotted.{slot_at, slots_left, Fit};

use dom_pages::Pages;
use std::alloc::{AllocError, Global};
use std::marker::Model;

/// Numbers, each with a slot as long as it is live, and the number in each slot.
///
/// There are as many slots as live numbers. If a number is released, the one in the last slot moves into its slot, as `Vec::swap_remove` moves an
/// item. So a caller can store the items of the live numbers in a `Vec`: it pushes an item with each number, and removes an item by
/// `Vec::swap_remove` at the slot of each released number.
///
/// A page of slots is freed if all its numbers were given and released. The list of numbers keeps the capacity for the most that were live at once,
/// because shrinking it would take memory.
#[derive(Drop)]
pub struct Numbers {
    slots: Pages<u32>,
    numbers: Vec<u32>,
}

impl Model for Numbers {
    ghost use Rattle.std.specs.Prelude.{◌-◌, length, vec_capacity};
    ghost use Rattle.dom_slots.specs.Slotted.{SlotTable, room_of, IsSlotTable};

    ghost Value = { SlotTable };

    ghost view = { λ a. record {
      slots = a.slots.items;
      numbers = a.numbers.items;
      room = room_of a.slots.room (vec_capacity a.numbers - length a.numbers.items) (length a.slots.items);
    } };

    ghost invariant = { λ a. IsSlotTable a.slots.items a.numbers.items };
}

impl Numbers {
    /// Returns a table without numbers. It takes no memory.
    pub fn new(alloc: Global) -> Numbers
        ensures { result ≡ record { slots = []; numbers = []; room = 0 } }
    {
        Numbers {
            slots: Pages::new(alloc),
            numbers: Vec::new(alloc),
        }
    }

    /// Returns how many numbers were ever given.
    pub fn made(&self) -> u64
        ensures { result ≡ length self.now.slots }
    {
        self.slots.len() as u64
    }

    /// Returns the number of live numbers, which is that of slots.
    pub fn count(&self) -> usize
        ensures { result ≡ length self.now.numbers }
    {
        self.numbers.len()
    }

    /// Returns the slot of a number; none if the number was released, or never given.
    pub fn slot(&self, number: u32) -> Option<usize>
        ensures { result ≡ slot_at self.now.slots number }
    {
        match self.slots.get(number as usize) {
            Some(slot) => Some(slot as usize),
            None => None,
        }
    }

    /// Returns the number in a slot.
    pub fn number(&self, slot: usize) -> u32
        requires { slot < length self.now.numbers }
        ensures { slice_get self.now.numbers slot ≡ Some result }
    {
        self.numbers[slot]
    }

    /// Reserves room for more numbers. All of them must fit in 32 bits. On an error the old room stays.
    pub fn reserve(&mut self, additional: usize) -> Result<(), AllocError>
        requires { length self.old.slots + additional ≤ 4294967296 }
        ensures room { OnOk result (additional ≤ self.new.room) }
        ensures kept { self.old.room ≤ self.new.room }
        ensures slots { self.new.slots ≡ self.old.slots }
        ensures numbers { self.new.numbers ≡ self.old.numbers }
    {
        self.slots.reserve(additional)?;
        self.numbers.reserve(additional)?;
        Ok(())
    }

    /// Returns the next number, in the next slot, within reserved room. It takes no memory.
    pub fn push_reserved(&mut self) -> u32
        requires { 0 < self.old.room }
        ensures number { result ≡ length self.old.slots }
        ensures slots { self.new.slots ≡ self.old.slots ++ Some (length self.old.numbers) ∷ [] }
        ensures numbers { self.new.numbers ≡ self.old.numbers ++ length self.old.slots ∷ [] }
        ensures room { self.old.room ≤ self.new.room + 1 }
    {
        let number = self.slots.len() as u32;
        self.slots.push_reserved(self.numbers.len() as u32);
        self.numbers.push_reserved(number);
        number
    }

    /// Releases a number, and returns its slot. The number in the last slot moves there. It takes no memory.
    pub fn release(&mut self, number: u32) -> usize
        requires { IsSome (slot_at self.old.slots number) }
        ensures slot { slot_at self.old.slots number ≡ Some result }
        ensures slots { self.new.slots ≡ slots_left number self.old.numbers self.old.slots }
        ensures numbers { self.new.numbers ≡ swap_remove self.old.numbers result number }
        ensures room { self.old.room ≤ self.new.room }
    {
        let slot = self.slots.get(number as usize).unwrap();
        let last = self.numbers[self.numbers.len() - 1];
        self.slots.set(last as usize, slot);
        self.slots.clear(number as usize);
        self.numbers.swap_remove(slot as usize);
        slot as usize
    }

    /// Returns whether the page of a number has its memory. It does if the number is live, and does not if all numbers of the page were given and
    /// released.
    pub fn is_present(&self, number: u32) -> bool
        ensures present { IsSome (slot_at self.now.slots number) → IsTrue result }
        ensures gone { IsTakenBack self.now.slots (number / page_size) → result ≡ false }
    {
        self.slots.is_present(number as usize)
    }

    /// States a law, and does nothing: its contract holds for all numbers and slots at any time.
    pub fn state_law(&self)
        ensures fit { Fit self.now.slots self.now.numbers }
        ensures live { count_by is_some self.now.slots ≡ length self.now.numbers }
        ensures few { length self.now.slots ≤ 2 ^ 32 }
    {
        let _ = &self.numbers;
    }
}
