//! Numbers of nodes and kinds, as C reads them.

ghost use Rattle.std.specs.Prelude.{◌≡◌};
ghost use Rattle.dom_model.specs.Forests.Kinds.{number_of_kind};
ghost use Rattle.dom_c.specs.WrittenValues.{number_or_null};

use crate::status::HP_NONE;
use dom_kinds::NodeType;
use dom_session::{Kind, NodeId};

/// Returns the number of a node, or `HP_NONE`.
pub(crate) fn node_number(node: Option<NodeId>) -> u32
    ensures { result ≡ number_or_null node }
{
    match node {
        None => HP_NONE,
        Some(node) => node.number(),
    }
}

/// Returns the standard's number of a kind.
pub(crate) fn kind_number(kind: Kind) -> u8
    ensures { result ≡ number_of_kind kind }
{
    kind.number() as u8
}
