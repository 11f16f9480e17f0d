//! A page of a table: a cell for each of its numbers, or no memory.

ghost use Rattle.std.specs.Prelude.{◌≡◌, ◌<◌, [], length, Some, None, IfOk, IsTrue, false, slice_index_or, slice_set};
ghost use Rattle.dom_pages.specs.Paged.{page_size, AllVacant};

use crate::cell::Cell;
use std::alloc::{AllocError, Global};
use std::marker::{Model, PhantomData};

/// The number of cells of a page.
pub(crate) const PAGE: usize = 1024;

/// The cells of a page; none if it freed its memory.
#[derive(Drop)]
pub(crate) struct Page<T, C: Cell<T>> {
    cells: Vec<C>,
    // The number of cells with an item.
    count: usize,
    of: PhantomData<T>,
}

impl<T, C: Cell<T>> Model for Page<T, C> {
    ghost use Rattle.std.specs.Prelude.{◌≡◌, List, Option, length, map, vec_capacity};
    ghost use Rattle.std.specs.Coded.{coded_list, coded_option};
    ghost use Rattle.dom_pages.specs.Paged.{taken_in};

    ghost Value = { List (Option T) };

    ghost coded = { coded_list (coded_option T.code) };

    ghost view = { λ p. map C.held p.cells.items };

    ghost invariant = { λ p. (p.count ≡ taken_in (map C.held p.cells.items)) × (vec_capacity p.cells ≡ length p.cells.items) };
}

impl<T: Copy, C: Cell<T>> Page<T, C> {
    /// Returns a page of vacant cells.
    pub(crate) fn blank(alloc: Global) -> Result<Page<T, C>, AllocError>
        ensures cells { IfOk result (λ p. length p ≡ page_size) }
        ensures vacant { IfOk result (λ p. AllVacant p) }
    {
        let mut cells = Vec::with_capacity(alloc, PAGE)?;
        for _ in 0..PAGE {
            cells.push_reserved(C::vacant());
        }
        Ok(Page {
            cells,
            count: 0,
            of: PhantomData,
        })
    }

    /// Returns the item in a cell; none past the cells.
    pub(crate) fn get(&self, cell: usize) -> Option<T>
        ensures { result ≡ slice_index_or self.now cell None }
    {
        match self.cells.get(cell) {
            Some(cell) => cell.item(),
            None => None,
        }
    }

    /// Writes an item into a cell.
    pub(crate) fn put(&mut self, cell: usize, item: T)
        requires { cell < length self.old }
        ensures { self.new ≡ slice_set self.old cell (Some item) }
    {
        if self.cells[cell].item().is_none() {
            self.count += 1;
        }
        self.cells[cell] = C::of(item);
    }

    /// Clears a cell, if there is one.
    pub(crate) fn clear(&mut self, cell: usize)
        ensures { self.new ≡ slice_set self.old cell None }
    {
        if self.get(cell).is_some() {
            self.count -= 1;
            self.cells[cell] = C::vacant();
        }
    }

    /// Returns whether all cells are vacant.
    pub(crate) fn is_vacant(&self) -> bool
        ensures vacant { IsTrue result → AllVacant self.now }
        ensures sure { AllVacant self.now → IsTrue result }
    {
        self.count == 0
    }

    /// Frees the memory of the page, with all items in its cells.
    pub(crate) fn give_back(&mut self)
        ensures { self.new ≡ [] }
    {
        let alloc = *self.cells.allocator();
        self.cells = Vec::new(alloc);
        self.count = 0;
    }

    /// Returns whether the page has its memory. A page with cells has it.
    pub(crate) fn is_present(&self) -> bool
        ensures present { 0 < length self.now → IsTrue result }
        ensures gone { self.now ≡ [] → result ≡ false }
    {
        self.cells.capacity() != 0
    }
}
