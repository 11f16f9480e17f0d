//! New Texts.

ghost use Rattle.std.specs.Prelude.{◌≡◌, ◌<◌, [], true, IfOk, OnOk};
ghost use Rattle.dom_model.specs.declared.Kind.TheVariants.{Document, Text};
ghost use Rattle.dom_model.specs.Worlds.Making.{made_node, named, with_text};
ghost use Rattle.dom_model.specs.Forests.Nodes.{is_of_kind};
ghost use Rattle.dom_edit.specs.Whole.{IsWhole, Follows};
ghost use Rattle.dom_edit.specs.KeptNodes.{KeepsLabels};

use dom_edit::{Content, World};
use dom_kinds::{Kind, Label};
use dom_tree::NodeId;
use dom_units::Units;
use std::alloc::{AllocError, Global};

// Makes a Text with these units in a document, as a root.
pub(crate) fn make_text(
    world: &mut World,
    alloc: Global,
    document: NodeId,
    text: Units,
) -> Result<NodeId, AllocError>
    requires whole { IsWhole world.old }
    requires kind { is_of_kind Document world.old.tree.forest document ≡ true }
    requires room { world.old.tree.made < 4294967295 }
    ensures number { IfOk result (λ id. id ≡ world.old.tree.made) }
    ensures made { OnOk result (Follows world.old world.new
        (made_node document (named Text []) (with_text text))) }
    ensures kept { KeepsLabels world.old world.new }
    ensures whole { IsWhole world.new }
{
    let content = Content::of_text(alloc, text)?;
    world.make(Label::nameless(Kind::Text), content, Some(document))
}
