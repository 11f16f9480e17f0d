//! Copies of trees, their equality, and how two nodes stand to each other (DOM Standard, "Interface Node", "Interface Document").
#![tactic(auto)]

mod clones;
mod equality;
mod relative_position;
mod walk_stack;

pub use clones::{clone_node, import};
pub use equality::is_equal;
pub use relative_position::{contains, position};
pub use walk_stack::{Waiting, wait_for};
