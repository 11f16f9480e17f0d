//! A table in pages.

ghost use Rattle.std.specs.Prelude.{◌≡◌, ◌+◌, ◌/◌, ◌<◌, ◌≤◌, ◌∷◌, ◌++◌, [], length, Some, None, IsSome, IsTrue, OnOk, false, slice_set};
ghost use Rattle.dom_pages.specs.Numbered.{item_at};
ghost use Rattle.dom_pages.specs.Paged.{page_size, IsTakenBack};

use crate::cell::Cell;
use crate::page::{PAGE, Page};
use std::alloc::{AllocError, Global};
use std::marker::Model;

/// A table of items by number, each in a cell. The cell is an `Option`, unless a smaller one is given.
#[derive(Drop)]
pub struct Pages<T, C: Cell<T> = Option<T>> {
    pages: Vec<Page<T, C>>,
    len: usize,
}

impl<T, C: Cell<T>> Model for Pages<T, C> {
    ghost use Rattle.std.specs.Prelude.{◌*◌, ◌-◌, length};
    ghost use Rattle.dom_pages.specs.Numbered.{NumberedList, numbered_code};
    ghost use Rattle.dom_pages.specs.Paged.{page_size, cells_of, IsPaged};

    ghost Value = { NumberedList T };

    ghost coded = { numbered_code T.code };

    ghost view = { λ p. record { items = cells_of p.pages.items p.len; room = page_size * length p.pages.items - p.len } };

    ghost invariant = { λ p. IsPaged p.pages.items p.len };
}

impl<T: Copy, C: Cell<T>> Pages<T, C> {
    /// Returns a table without numbers. It takes no memory.
    pub fn new(alloc: Global) -> Pages<T, C>
        ensures { result ≡ record { items = []; room = 0 } }
    {
        Pages {
            pages: Vec::new(alloc),
            len: 0,
        }
    }

    /// Returns how many numbers were ever given.
    pub fn len(&self) -> usize
        ensures { result ≡ length self.now.items }
    {
        self.len
    }

    /// Returns the item of a number; none if the number was cleared, or never given.
    pub fn get(&self, number: usize) -> Option<T>
        ensures { result ≡ item_at self.now.items number }
    {
        match self.pages.get(number / PAGE) {
            Some(page) => page.get(number % PAGE),
            None => None,
        }
    }

    // Returns for how many more numbers there is room.
    fn room(&self) -> usize
        ensures { result ≡ self.now.room }
    {
        self.pages.len() * PAGE - self.len
    }

    // Appends a page.
    fn add_page(&mut self) -> Result<(), AllocError>
        requires { length self.old.items + self.old.room < 4294967296 }
        ensures room { OnOk result (self.new.room ≡ self.old.room + page_size) }
        ensures kept { self.old.room ≤ self.new.room }
        ensures items { self.new.items ≡ self.old.items }
    {
        let alloc = *self.pages.allocator();
        let page = Page::blank(alloc)?;
        self.pages.push(page)?;
        Ok(())
    }

    /// Reserves room for more numbers. All of them must fit in 32 bits. On an error the old room stays.
    pub fn reserve(&mut self, additional: usize) -> Result<(), AllocError>
        requires { length self.old.items + additional ≤ 4294967296 }
        ensures room { OnOk result (additional ≤ self.new.room) }
        ensures kept { self.old.room ≤ self.new.room }
        ensures items { self.new.items ≡ self.old.items }
    {
        while self.room() < additional {
            self.add_page()?;
        }
        Ok(())
    }

    /// Adds an item with the next number, within reserved room. It takes no memory.
    pub fn push_reserved(&mut self, item: T)
        requires { 0 < self.old.room }
        ensures items { self.new.items ≡ self.old.items ++ Some item ∷ [] }
        ensures room { self.old.room ≤ self.new.room + 1 }
    {
        let page = &mut self.pages[self.len / PAGE];
        page.put(self.len % PAGE, item);
        self.len += 1;
    }

    /// Replaces the item of a number that was not cleared. It takes no memory.
    pub fn set(&mut self, number: usize, item: T)
        requires { IsSome (item_at self.old.items number) }
        ensures items { self.new.items ≡ slice_set self.old.items number (Some item) }
        ensures room { self.old.room ≤ self.new.room }
    {
        let page = &mut self.pages[number / PAGE];
        page.put(number % PAGE, item);
    }

    /// Clears a number: it has no item from then on. It takes no memory, and frees the page of the number if all its numbers were given and cleared.
    pub fn clear(&mut self, number: usize)
        requires { number < length self.old.items }
        ensures items { self.new.items ≡ slice_set self.old.items number None }
        ensures room { self.old.room ≤ self.new.room }
    {
        let page = &mut self.pages[number / PAGE];
        page.clear(number % PAGE);
        // The page of the next number and the pages after it keep their memory, because they are the reserved room.
        if number / PAGE < self.len / PAGE && page.is_vacant() {
            page.give_back();
        }
    }

    /// Returns whether the page of a number has its memory. It does if the number has an item, and does not if all numbers of the page were given and
    /// cleared.
    pub fn is_present(&self, number: usize) -> bool
        ensures present { IsSome (item_at self.now.items number) → IsTrue result }
        ensures gone { IsTakenBack self.now.items (number / page_size) → result ≡ false }
    {
        match self.pages.get(number / PAGE) {
            Some(page) => page.is_present(),
            None => false,
        }
    }
}
