//! The first item of each key's chain.

ghost use Rattle.std.specs.Prelude.{◌≡◌, ℕ, ◌-◌, ◌≤◌, ◌++◌, [], List, Option, Some, None, IsSome, IfOk, OnOk, OnErr, length, map, replicate, slice_set};
ghost use Rattle.dom_pages.specs.Numbered.{item_at};

use crate::item_link::{HeadCell, ItemLink};
use dom_pages::Pages;
use std::alloc::{AllocError, Global};

/// The first item of each covered key's chain.
pub trait Heads {
    // the first item of a key's chain, nothing if the key is not covered
    ghost by_key: { Self → List (Option (Option ℕ)) };

    /// Returns the first item of a key's chain; none if the key is not covered.
    fn first(&self, key: u32) -> Option<ItemLink>
        ensures { result ≡ item_at (by_key self.now) key };

    /// Writes the first item of a covered key's chain. It takes no memory.
    fn begin(&mut self, key: u32, first: ItemLink)
        requires { IsSome (item_at (by_key self.old) key) }
        ensures { by_key self.new ≡ slice_set (by_key self.old) key (Some first) };
}

/// Heads in pages: for keys that are added in order and forgotten. A page whose keys were all forgotten is freed.
#[derive(Drop)]
pub struct HeadsInPages {
    heads: Pages<ItemLink, HeadCell>,
}

impl Heads for HeadsInPages {
    ghost by_key = { λ h. h.heads.items };

    fn first(&self, key: u32) -> Option<ItemLink> {
        self.heads.get(key as usize)
    }

    fn begin(&mut self, key: u32, first: ItemLink) {
        self.heads.set(key as usize, first);
    }
}

impl HeadsInPages {
    pub(crate) fn new(alloc: Global) -> HeadsInPages
        ensures { result.heads.items ≡ [] }
    {
        HeadsInPages {
            heads: Pages::new(alloc),
        }
    }

    /// Covers the keys below `made` that were never covered.
    pub(crate) fn cover(&mut self, made: u64) -> Result<(), AllocError>
        requires { made ≤ 4294967295 }
        ensures ok { OnOk result (self.new.heads.items ≡ self.old.heads.items
            ++ replicate (made - length self.old.heads.items) (Some None)) }
        ensures err { OnErr result (self.new.heads.items ≡ self.old.heads.items) }
    {
        let have = self.heads.len();
        let need = made as usize;
        if need <= have {
            return Ok(());
        }
        self.heads.reserve(need - have)?;
        for _key in have..need {
            self.heads.push_reserved(ItemLink::none());
        }
        Ok(())
    }

    /// Uncovers a key, if it is covered.
    pub(crate) fn forget(&mut self, key: u32)
        ensures { self.new.heads.items ≡ slice_set self.old.heads.items key None }
    {
        let index = key as usize;
        if index < self.heads.len() {
            self.heads.clear(index);
        }
    }
}

/// Heads in a list: for a fixed number of keys.
#[derive(Drop)]
pub struct HeadsInList {
    heads: Vec<ItemLink>,
}

impl Heads for HeadsInList {
    ghost by_key = { λ h. map (λ first. Some first) h.heads.items };

    fn first(&self, key: u32) -> Option<ItemLink> {
        self.heads.get(key as usize).copied()
    }

    fn begin(&mut self, key: u32, first: ItemLink) {
        self.heads[key as usize] = first;
    }
}

impl HeadsInList {
    pub(crate) fn new(alloc: Global) -> HeadsInList
        ensures { result.heads.items ≡ [] }
    {
        HeadsInList {
            heads: Vec::new(alloc),
        }
    }

    /// Returns heads for `count` keys without items.
    pub(crate) fn of(alloc: Global, count: usize) -> Result<HeadsInList, AllocError>
        ensures { IfOk result (λ h. h.heads.items ≡ replicate count None) }
    {
        let heads = vec![in alloc; ItemLink::none(); count]?;
        Ok(HeadsInList { heads })
    }

    /// Returns the number of keys.
    pub(crate) fn count(&self) -> usize
        ensures { result ≡ length self.now.heads.items }
    {
        self.heads.len()
    }
}
