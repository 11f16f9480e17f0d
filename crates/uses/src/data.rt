//! Calls of `dom_data` that need no unused number, because they make no node.

ghost use Rattle.std.specs.Prelude.{◌≡◌, [], Some, true, IsErr, IfErr, OnOk};
ghost use Rattle.dom_model.specs.declared.DomError.TheVariants.{IndexSizeError};
ghost use Rattle.dom_model.specs.declared.Kind.TheVariants.{Text};
ghost use Rattle.dom_model.specs.Forests.Forest.{HasNode};
ghost use Rattle.dom_model.specs.Forests.Nodes.{is_of_kind};
ghost use Rattle.dom_model.specs.DataAndCopies.Data.{check_offset, set_text_content};
ghost use Rattle.dom_edit.specs.Refusals.{IsRefused};
ghost use Rattle.dom_edit.specs.Whole.{IsWhole, Follows, unwatched};

use dom_data::{set_text_content, split};
use dom_edit::{Refusal, World};
use dom_tree::NodeId;
use dom_units::Units;
use std::alloc::{AllocError, Global};

/// Removes the data of a node, or all descendants of an element or a fragment.
pub fn empty(world: &mut World, alloc: Global, node: NodeId) -> Result<(), AllocError>
    requires whole { IsWhole world.old }
    requires held { HasNode world.old.tree.forest node }
    ensures emptied { OnOk result (Follows world.old world.new (set_text_content node [])) }
    ensures whole { IsWhole world.new }
{
    set_text_content(world, alloc, node, Units::new(alloc))
}

/// Splits a Text past its end, which fails.
pub fn split_past_the_end(
    world: &mut World,
    alloc: Global,
    text: NodeId,
    offset: usize,
) -> Result<NodeId, Refusal>
    requires whole { IsWhole world.old }
    requires kind { is_of_kind Text world.old.tree.forest text ≡ true }
    requires past { check_offset (unwatched world.old) text offset ≡ Some IndexSizeError }
    ensures err { IsErr result }
    ensures refused { IfErr result (λ e. IsRefused e (Some IndexSizeError) world.old world.new) }
{
    split(world, alloc, text, offset)
}
