//! The buckets of items, as chains by key.

ghost use Rattle.std.specs.Prelude.{◌≡◌, ℕ, ◌+◌, ◌^◌, ◌<◌, ◌≤◌, Bool, true, false, [], ◌∷◌, ◌++◌, length, map, replicate, slice_get, slice_set, swap_remove, Some, IfSome, IfNone, IfOk, OnOk, OnErr};
ghost use Rattle.std.specs.List.{list_any};
ghost use Rattle.dom_model.specs.PlainLists.Lists.{among};
ghost use Rattle.dom_chains.specs.Keyed.{covers, covered_to, key_at, keys_of, on_key, passes_at, CanChange};

use crate::change::Change;
use crate::heads::{Heads, HeadsInList, HeadsInPages};
use crate::item_link::ItemLink;
use crate::table::{Seat, Table};
use std::alloc::{AllocError, Global};
use std::marker::Model;

/// Items by number, without gaps, each in the bucket of its key.
#[derive(Drop)]
pub struct Chains<T, H: Heads> {
    table: Table<T, H>,
}

impl<T, H: Heads> Model for Chains<T, H> {
    ghost use Rattle.dom_chains.specs.Keyed.{Keyed, keyed_code};
    ghost use Rattle.dom_chains.specs.Chained.{keyed, AreChained};

    ghost Value = { Keyed T };

    ghost coded = { keyed_code T.code };

    ghost view = { λ c. keyed H.by_key c.table };

    ghost invariant = { λ c. AreChained H.by_key c.table };
}

impl<T: Copy> Chains<T, HeadsInPages> {
    /// Returns a table without items and covered keys. It takes no memory.
    pub fn new(alloc: Global) -> Chains<T, HeadsInPages>
        ensures { result ≡ record { items = []; covered = []; room = 0 } }
    {
        Chains {
            table: Table {
                seats: Vec::new(alloc),
                heads: HeadsInPages::new(alloc),
            },
        }
    }

    /// Covers the keys below `made` that were never covered. A forgotten key stays forgotten.
    pub fn cover(&mut self, made: u64) -> Result<(), AllocError>
        requires { made ≤ 4294967295 }
        ensures ok { OnOk result (self.new ≡ record self.old {
          covered = covered_to made self.old.covered;
        }) }
        ensures err { OnErr result (self.new ≡ self.old) }
    {
        self.table.heads.cover(made)?;
        Ok(())
    }

    /// Forgets a key without items, and frees its memory. A key that was never covered stays uncovered. It takes no memory.
    pub fn forget(&mut self, key: u32)
        requires { among key (keys_of self.old.items) ≡ false }
        ensures { self.new ≡ record self.old { covered = slice_set self.old.covered key false } }
    {
        self.table.heads.forget(key);
    }
}

impl<T: Copy> Chains<T, HeadsInList> {
    /// Returns a table without items and keys. It takes no memory.
    pub fn new(alloc: Global) -> Chains<T, HeadsInList>
        ensures { result ≡ record { items = []; covered = []; room = 0 } }
    {
        Chains {
            table: Table {
                seats: Vec::new(alloc),
                heads: HeadsInList::new(alloc),
            },
        }
    }

    /// Returns a table without items, with `count` covered keys.
    pub fn of(alloc: Global, count: usize) -> Result<Chains<T, HeadsInList>, AllocError>
        requires { count ≤ 4294967296 }
        ensures { IfOk result (λ c. c ≡ record {
          items = [];
          covered = replicate count true;
          room = 0;
        }) }
    {
        let heads = HeadsInList::of(alloc, count)?;
        Ok(Chains {
            table: Table {
                seats: Vec::new(alloc),
                heads,
            },
        })
    }

    /// Returns the number of keys.
    pub fn key_count(&self) -> usize
        ensures { result ≡ length self.now.covered }
    {
        self.table.heads.count()
    }
}

impl<T: Copy, H: Heads> Chains<T, H> {
    /// Returns the number of items.
    pub fn count(&self) -> usize
        ensures { result ≡ length self.now.items }
    {
        self.table.seats.len()
    }

    /// Returns the key and the item of a number; none past the last.
    pub fn get(&self, id: usize) -> Option<(u32, T)>
        ensures { result ≡ slice_get self.now.items id }
    {
        if id < self.table.seats.len() {
            let seat = self.table.seat(id);
            Some((seat.key, seat.item))
        } else {
            None
        }
    }

    /// Returns whether a key is covered.
    pub fn is_covered(&self, key: u32) -> bool
        ensures { result ≡ covers self.now.covered key }
    {
        self.table.heads.first(key).is_some()
    }

    /// Returns the number of an item with a key, if any.
    pub fn first(&self, key: u32) -> Option<usize>
        ensures some { IfSome result (λ id. key_at self.now.items id ≡ Some key) }
        ensures none { IfNone result (among key (keys_of self.now.items) ≡ false) }
    {
        self.table.head(key).get()
    }

    /// Returns whether an item has a key.
    pub fn has(&self, key: u32) -> bool
        ensures { result ≡ among key (keys_of self.now.items) }
    {
        self.first(key).is_some()
    }

    /// Returns whether a test holds for an item of a key. Visits the items of that key only.
    pub fn any_at<F: Fn(T) -> bool>(&self, key: u32, test: F) -> bool
        requires { F.IsAlwaysCallable test }
        ensures { (says : T → Bool) →
            ((it : T) (passes : Bool) → F.post test it passes → passes ≡ says it) →
            result ≡ list_any (passes_at key says) self.now.items }
    {
        let mut here = self.table.head(key);
        while let Some(id) = here.get() {
            let seat = self.table.seat(id);
            if test(seat.item) {
                return true;
            }
            here = seat.next;
        }
        false
    }

    /// Reserves room for more items. On an error the old room stays.
    pub fn reserve(&mut self, additional: usize) -> Result<(), AllocError>
        ensures room { OnOk result (additional ≤ self.new.room) }
        ensures kept { self.old.room ≤ self.new.room }
        ensures items { self.new.items ≡ self.old.items }
        ensures covered { self.new.covered ≡ self.old.covered }
    {
        self.table.seats.reserve(additional)?;
        Ok(())
    }

    /// Adds an item with the next number, within reserved room. It takes no memory.
    pub fn push_reserved(&mut self, key: u32, item: T)
        requires room { 0 < self.old.room }
        requires few { length self.old.items < 2 ^ 33 }
        requires covered { covers self.old.covered key ≡ true }
        ensures items { self.new.items ≡ self.old.items ++ (key, item) ∷ [] }
        ensures covered { self.new.covered ≡ self.old.covered }
        ensures room { self.old.room ≤ self.new.room + 1 }
    {
        let id = self.table.seats.len();
        self.table.seats.push_reserved(Seat {
            key,
            item,
            prev: ItemLink::none(),
            next: ItemLink::none(),
        });
        self.table.link(id, key, item);
    }

    /// Writes an item with its key. An item that already has the key keeps its position in the bucket; any other becomes the first.
    pub fn place(&mut self, id: usize, key: u32, item: T)
        requires within { id < length self.old.items }
        requires covered { covers self.old.covered key ≡ true }
        ensures { self.new ≡ record self.old { items = slice_set self.old.items id (key, item) } }
    {
        self.table.place(id, key, item);
    }

    /// Removes an item. The last item gets its number. It takes no memory.
    pub fn swap_remove(&mut self, id: usize)
        requires { id < length self.old.items }
        ensures items { IfSome (slice_get self.old.items id)
            (λ it. self.new.items ≡ swap_remove self.old.items id it) }
        ensures covered { self.new.covered ≡ self.old.covered }
        ensures room { self.old.room ≤ self.new.room }
    {
        let last = self.table.seats.len() - 1;
        let moved = self.table.seat(last);
        self.table.place(id, moved.key, moved.item);
        self.table.unlink(last);
        self.table.seats.truncate(last);
    }

    /// Changes the items of a key. Visits the items of that key only.
    pub fn change<C: Change<T>>(&mut self, key: u32, change: &C)
        requires { CanChange (C.CanTake change.now) (C.changed change.now) key self.old.items
            self.old.covered }
        ensures { self.new ≡ record self.old {
          items = map (on_key key (C.changed change.now)) self.old.items;
        } }
    {
        let mut here = self.table.head(key);
        while let Some(id) = here.get() {
            let seat = self.table.seat(id);
            here = seat.next;
            let (to, item) = change.apply(seat.key, seat.item);
            self.table.place(id, to, item);
        }
    }

    /// States a law, and does nothing: its contract holds for all items and keys at any time.
    pub fn state_law(&self)
        ensures covered { (key : ℕ) → among key (keys_of self.now.items) ≡ true →
            covers self.now.covered key ≡ true }
        ensures few { length self.now.items ≤ 2 ^ 33 }
    {
        let _ = &self.table;
    }
}
