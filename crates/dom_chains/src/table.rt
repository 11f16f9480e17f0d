//! Seats of items: each has the item's neighbours in its chain.

ghost use Rattle.std.specs.Prelude.{◌≡◌, ◌<◌, true, length, slice_get, slice_set, Some};
ghost use Rattle.dom_chains.specs.Keyed.{covers};
ghost use Rattle.dom_chains.specs.Chained.{head_at, link_at, HasChains, Rechains, ForLink, led_on, led_back, keys_without, unchained, chained_first, moved, items_of, keys_in, keyed, links_of, AreChained};

use crate::heads::Heads;
use crate::item_link::ItemLink;

/// An item with its key, and the items before and after it in the chain of its key.
#[derive(Clone, Copy, Drop)]
pub(crate) struct Seat<T> {
    pub(crate) key: u32,
    pub(crate) item: T,
    pub(crate) prev: ItemLink,
    pub(crate) next: ItemLink,
}

/// The seats of all items, and the first item of each covered key's chain.
#[derive(Drop)]
pub(crate) struct Table<T, H> {
    pub(crate) seats: Vec<Seat<T>>,
    pub(crate) heads: H,
}

impl<T: Copy, H: Heads> Table<T, H> {
    /// Returns the seat of an item.
    pub(crate) fn seat(&self, id: usize) -> Seat<T>
        requires { id < length (items_of self.now) }
        ensures item { slice_get (items_of self.now) id ≡ Some (result.key, result.item) }
        ensures prev { result.prev ≡ link_at (links_of H.by_key self.now).prevs id }
        ensures next { result.next ≡ link_at (links_of H.by_key self.now).nexts id }
    {
        self.seats[id]
    }

    /// Returns the first item of a key's chain.
    pub(crate) fn head(&self, key: u32) -> ItemLink
        ensures { result ≡ head_at (H.by_key self.now.heads) key }
    {
        self.heads.first(key).unwrap_or(ItemLink::none())
    }

    // Links `prev` forward to `next`; without a `prev`, `next` becomes the first item of the key's chain.
    fn lead_on(&mut self, prev: ItemLink, key: u32, next: ItemLink)
        requires covered { covers (keyed H.by_key self.old).covered key ≡ true }
        requires link { ForLink prev (length (links_of H.by_key self.old).nexts) }
        ensures same { keyed H.by_key self.new ≡ keyed H.by_key self.old }
        ensures links { links_of H.by_key self.new
            ≡ led_on prev key next (links_of H.by_key self.old) }
    {
        match prev.get() {
            Some(prev) => {
                let seat = &mut self.seats[prev];
                seat.next = next;
            }
            None => self.heads.begin(key, next),
        }
    }

    // Links `next`, if any, back to `prev`.
    fn lead_back(&mut self, next: ItemLink, prev: ItemLink)
        requires { ForLink next (length (links_of H.by_key self.old).prevs) }
        ensures same { keyed H.by_key self.new ≡ keyed H.by_key self.old }
        ensures links { links_of H.by_key self.new
            ≡ led_back next prev (links_of H.by_key self.old) }
    {
        if let Some(next) = next.get() {
            let seat = &mut self.seats[next];
            seat.prev = prev;
        }
    }

    /// Removes an item from its chain.
    pub(crate) fn unlink(&mut self, id: usize)
        requires within { id < length (items_of self.old) }
        requires chains { AreChained H.by_key self.old }
        ensures same { keyed H.by_key self.new ≡ keyed H.by_key self.old }
        ensures chains { let keys = keys_in self.old in Rechains keys (keys_without id keys)
            (unchained id) (links_of H.by_key self.old) (links_of H.by_key self.new) }
    {
        let seat = self.seat(id);
        self.lead_on(seat.prev, seat.key, seat.next);
        self.lead_back(seat.next, seat.prev);
    }

    /// Writes an item that is in no chain, and makes it the first of its key's chain.
    pub(crate) fn link(&mut self, id: usize, key: u32, item: T)
        requires within { id < length (items_of self.old) }
        requires covered { covers (keyed H.by_key self.old).covered key ≡ true }
        requires chains { HasChains (keys_without id (keys_in self.old))
            (links_of H.by_key self.old) }
        ensures view { let old = keyed H.by_key self.old in
            keyed H.by_key self.new ≡ record old { items = slice_set old.items id (key, item) } }
        ensures chains { Rechains (keys_without id (keys_in self.old)) (keys_in self.new)
            (chained_first id key) (links_of H.by_key self.old) (links_of H.by_key self.new) }
    {
        let next = self.head(key);
        self.lead_back(next, ItemLink::to(id));
        self.seats[id] = Seat {
            key,
            item,
            prev: ItemLink::none(),
            next,
        };
        self.heads.begin(key, ItemLink::to(id));
    }

    /// Writes an item with its key. An item that already has the key keeps its position in the chain; any other becomes the first.
    pub(crate) fn place(&mut self, id: usize, key: u32, item: T)
        requires within { id < length (items_of self.old) }
        requires covered { covers (keyed H.by_key self.old).covered key ≡ true }
        requires chains { AreChained H.by_key self.old }
        ensures view { let old = keyed H.by_key self.old in
            keyed H.by_key self.new ≡ record old { items = slice_set old.items id (key, item) } }
        ensures chains { let keys = keys_in self.old in Rechains keys (keys_in self.new)
            (moved id (keys id) key) (links_of H.by_key self.old) (links_of H.by_key self.new) }
    {
        if self.seat(id).key == key {
            let seat = &mut self.seats[id];
            seat.item = item;
        } else {
            self.unlink(id);
            self.link(id, key, item);
        }
    }
}
