//! An arena of linked nodes. Each has a value, a parent or none, and an ordered list of children.
//!
//! Nodes have memory of their own and point at one another, so each step and each change of links takes constant time.
#![tactic(auto)]

mod links;
mod node;
mod place;
mod pool;
mod steps;
mod store;

pub use links::{Links, Refused, Slot};
#[doc(hidden)]
pub use node::Node;
pub use place::{Link, Place};
#[doc(hidden)]
pub use pool::{NodePtr, Pool};
pub use store::Store;
