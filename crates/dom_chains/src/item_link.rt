//! Links to items by number, and the cells of a paged table of them.
//!
//! Each is as large as a number: the two highest, which no item has, stand for none and for a key that is not covered.

ghost use Rattle.std.specs.Prelude.{◌≡◌, ◌<◌, ◌^◌, Some, None};
ghost use Rattle.dom_chains.specs.LinkCodes.{head_kept};

use dom_pages::Cell;
use std::marker::Model;

const NOWHERE: usize = usize::MAX;

const NOT_COVERED: usize = usize::MAX - 1;

/// The number of an item, or none.
#[derive(Clone, Copy)]
pub struct ItemLink {
    index: usize,
}

impl Model for ItemLink {
    ghost use Rattle.std.specs.Prelude.{◌≡◌, ℕ, Option};
    ghost use Rattle.dom_chains.specs.LinkCodes.{link_kept, number_kept, number_kept-link_kept};

    ghost Value = { Option ℕ };

    ghost view = { λ l. link_kept l.index };

    ghost invariant = { λ l. l.index ≡ 18446744073709551614 → ⊥ };

    ghost inverse = { λ o. record { index = number_kept o } };

    ghost inverse_ok = { λ l h i. record { index = number_kept-link_kept l.index i } };
}

impl ItemLink {
    /// Returns a link to nothing.
    pub(crate) fn none() -> ItemLink
        ensures { result ≡ None }
    {
        ItemLink { index: NOWHERE }
    }

    /// Returns a link to an item.
    pub(crate) fn to(id: usize) -> ItemLink
        requires { id < 2 ^ 33 }
        ensures { result ≡ Some id }
    {
        ItemLink { index: id }
    }

    /// Returns the item that it leads to, if any.
    pub(crate) fn get(self) -> Option<usize>
        ensures { result ≡ self }
    {
        if self.index == NOWHERE {
            None
        } else {
            Some(self.index)
        }
    }
}

/// The first link of a covered key, or none if the key is not covered.
#[derive(Clone, Copy)]
pub(crate) struct HeadCell {
    index: usize,
}

impl Cell<ItemLink> for HeadCell {
    ghost held = { λ cell. head_kept cell.index };

    fn vacant() -> HeadCell {
        HeadCell { index: NOT_COVERED }
    }

    fn of(item: ItemLink) -> HeadCell {
        HeadCell { index: item.index }
    }

    fn item(self) -> Option<ItemLink> {
        if self.index == NOT_COVERED {
            None
        } else {
            Some(ItemLink { index: self.index })
        }
    }
}
