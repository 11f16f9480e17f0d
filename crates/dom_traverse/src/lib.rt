//! Filters, node iterators and tree walkers (DOM Standard, "Traversal"). A walk goes step by step, over no more nodes than it passes.
#![tactic(auto)]

mod filter;
mod iterator;
mod iterators;
mod judge;
mod located;
mod new_reference;
mod positioned;
mod positions_by_node;
mod pre_removal;
mod preceding_and_following;
mod references;
mod sibling_walk;
mod walker;
mod walker_moves;
mod walkers;

pub use dom_model::{Move, Verdict};
pub use filter::{Filter, Rule};
pub use iterators::{IteratorId, NodeIterators, OfIterator};
pub use walkers::{OfWalker, WalkerId, Walkers};
