//! Paged tables of items by number. Numbers are given in order, and none is reused.
//!
//! A page whose numbers were all given and cleared frees its memory. So a table takes memory for its items, and very little for cleared numbers.
#![tactic(auto)]

mod cell;
mod page;
mod pages;

pub use cell::Cell;
pub use pages::Pages;
