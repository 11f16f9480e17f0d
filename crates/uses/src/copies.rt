//! Calls of `dom_clone` that need no unused number, because they make no node.

ghost use Rattle.std.specs.Prelude.{◌≡◌, Some, true, IsErr, IfErr};
ghost use Rattle.dom_model.specs.declared.DomError.TheVariants.{NotSupportedError};
ghost use Rattle.dom_model.specs.declared.Kind.TheVariants.{Document};
ghost use Rattle.dom_model.specs.Forests.Forest.{HasNode};
ghost use Rattle.dom_model.specs.Forests.Nodes.{is_of_kind};
ghost use Rattle.dom_edit.specs.Refusals.{IsRefused};
ghost use Rattle.dom_edit.specs.Whole.{IsWhole};

use dom_clone::import;
use dom_edit::{Refusal, World};
use dom_tree::NodeId;
use std::alloc::Global;

/// Imports a Document into another, which fails.
pub fn import_document(
    world: &mut World,
    alloc: Global,
    document: NodeId,
    other: NodeId,
) -> Result<NodeId, Refusal>
    requires whole { IsWhole world.old }
    requires document_kind { is_of_kind Document world.old.tree.forest document ≡ true }
    requires held { HasNode world.old.tree.forest other }
    requires other_kind { is_of_kind Document world.old.tree.forest other ≡ true }
    ensures err { IsErr result }
    ensures refused { IfErr result (λ e. IsRefused e (Some NotSupportedError) world.old world.new) }
{
    import(world, alloc, document, other, true)
}
