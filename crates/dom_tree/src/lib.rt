//! The tree of nodes, in linked slots (DOM Standard, "Trees"). Its view in contracts is a list of nested nodes.
#![tactic(auto)]

mod at;
mod block_counts;
mod block_updates;
mod blocks;
mod body;
mod child_at_index;
mod children;
mod common_ancestor;
mod descendants;
mod discard;
mod index_cache;
mod index_updates;
mod insertion;
mod item;
mod kinds;
mod leaf_append;
mod neighbours;
mod node_documents;
mod node_id;
mod node_table;
mod tallies;
mod tally_updates;
mod tree;
mod tree_order;

pub use at::At;
pub use body::Body;
pub use children::Children;
pub use common_ancestor::Meeting;
pub use node_id::{NodeId, OfNode};
pub use tree::Tree;
