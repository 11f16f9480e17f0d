//! Numbers of nodes.

use dom_ids::Id;

/// The kind of a [`NodeId`].
#[derive(Clone, Copy, Debug, PartialEq, Eq, Hash, Drop)]
pub struct OfNode;

/// The number of a node, for callers. The first node made gets 0, and no number is reused.
pub type NodeId = Id<OfNode>;
