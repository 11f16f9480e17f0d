//! Items in buckets by key. Items are numbered without gaps.
//!
//! Each bucket is a chain: a key has the first item, and each item has the previous and the next. So visiting a bucket takes time in proportion to
//! its items. Removing an item, or giving it another key, takes constant time and no memory.
#![tactic(auto)]

mod chains;
mod change;
mod heads;
mod item_link;
mod table;

pub use chains::Chains;
pub use change::Change;
pub use heads::{Heads, HeadsInList, HeadsInPages};
#[doc(hidden)]
pub use item_link::ItemLink;
