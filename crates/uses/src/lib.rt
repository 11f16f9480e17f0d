//! Callers of the crates that others use, one module for each. The pages `CALLING.md` quote them, except `copies` and `data`: these show calls that
//! make no node.
#![tactic(auto)]

pub mod attrs;
pub mod copies;
pub mod data;
pub mod edit;
pub mod observe;
pub mod pages;
pub mod ranges;
pub mod session;
pub mod tree;
pub mod units;
