//! The stack of a walk in tree order.

ghost use Rattle.std.specs.Prelude.{◌≡◌, ◌++◌, OnOk};
ghost use Rattle.dom_clone.specs.WalkStack.{waiting_from};

use dom_tree::NodeId;
use std::alloc::AllocError;

/// A stack entry: a node to be visited with its following siblings and their descendants, and the place of their results.
///
/// A node's following siblings lie below its children, so nodes are visited in tree order.
#[derive(Drop)]
pub struct Waiting<Place> {
    /// The node to visit.
    pub first: NodeId,
    /// The place of its result: a parent or a depth.
    pub place: Place,
}

/// Pushes a node, if there is one.
pub fn wait_for<Place: Copy>(
    waiting: &mut Vec<Waiting<Place>>,
    first: Option<NodeId>,
    place: Place,
) -> Result<(), AllocError>
    ensures { OnOk result (waiting.new.items ≡ waiting.old.items ++ waiting_from first place) }
{
    if let Some(first) = first {
        waiting.push(Waiting { first, place })?;
    }
    Ok(())
}
