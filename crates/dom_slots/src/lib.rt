//! Slot maps. Numbers are given in order, can be released and are never reused. The live ones have slots without gaps.
//!
//! `NumberedItems` stores an item for each live number, in its slot. `Numbers` stores only the numbers and slots, for callers that store the items
//! themselves. The view of either is the list of items by number: `by_slot` of `specs/Slotted.antt`. `proofs/Entries.antt` proves that list after
//! each change, and `proofs/Live.antt` that the entries of live numbers are the items in another order.
#![tactic(auto)]

mod numbered_items;
mod numbers;

pub use numbered_items::NumberedItems;
pub use numbers::Numbers;
