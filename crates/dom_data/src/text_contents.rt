//! Text content (DOM Standard, "Interface Node", textContent).

ghost use Rattle.std.specs.Prelude.{◌≡◌, ◌≢◌, ◌<◌, true, false, [], ◌++◌, drop, IfOk, OnOk, OnErr};
ghost use Rattle.dom_model.specs.declared.Kind.TheVariants.{Document};
ghost use Rattle.dom_model.specs.Forests.Forest.{HasNode, inclusive_descendants};
ghost use Rattle.dom_model.specs.DataAndCopies.Data.{text_content, string_replace_all, set_text_content};
ghost use Rattle.dom_model.specs.Forests.Kinds.{may_be_parent, is_character_data};
ghost use Rattle.dom_model.specs.Forests.Nodes.{kind_passes, is_of_kind};
ghost use Rattle.dom_model.specs.TokenText.Edits.{set_text_content_edits};
ghost use Rattle.dom_edit.specs.Whole.{IsWhole, Follows, unwatched};
ghost use Rattle.dom_edit.specs.KeptNodes.{KeepsLabels};
ghost use Rattle.dom_edit.specs.Markers.{StandByEdits};
ghost use Rattle.dom_data.specs.GatheredData.{text_at, gathered};
ghost use Rattle.dom_data.specs.TextContent.{makes_text};

use crate::bodies::kind_in;
use crate::character_data::set_data;
use crate::new_text::make_text;
use dom_edit::{Content, World, data_in, document_in};
use dom_kinds::Kind;
use dom_tree::{NodeId, Tree};
use dom_units::Units;
use std::alloc::{AllocError, Global};

// Appends the data of a node to a text, if the node is a Text.
fn append_data(tree: &Tree<Content>, node: NodeId, text: &mut Units) -> Result<(), AllocError>
    requires held { HasNode tree.now.forest node }
    ensures { OnOk result (text.new ≡ text.old ++ text_at tree.now.forest node) }
{
    if kind_in(tree, node) != Kind::Text {
        return Ok(());
    }
    let end = text.len();
    text.splice(end, 0, data_in(tree, node))
}

// Returns the concatenated data of the Texts below a node ("descendant text content").
fn descendant_text(tree: &Tree<Content>, alloc: Global, top: NodeId) -> Result<Units, AllocError>
    requires held { HasNode tree.now.forest top }
    ensures { IfOk result (λ text. text ≡ gathered tree.now.forest
        (drop 1 (inclusive_descendants tree.now.forest top))) }
{
    tree.state_law();
    let mut text = Units::new(alloc);
    let mut here = top;
    while let Some(next) = tree.next_inside(top, here) {
        append_data(tree, next, &mut text)?;
        here = next;
    }
    Ok(text)
}

/// Returns the data of a node, or the concatenated data of the Texts below it; none for a Document and a doctype ("get text content").
pub fn text_content(world: &World, alloc: Global, node: NodeId) -> Result<Option<Units>, AllocError>
    requires whole { IsWhole world.now }
    requires held { HasNode world.now.tree.forest node }
    ensures { IfOk result (λ text. text ≡ text_content (unwatched world.now) node) }
{
    match kind_in(&world.tree, node) {
        Kind::Element | Kind::DocumentFragment => {
            let text = descendant_text(&world.tree, alloc, node)?;
            Ok(Some(text))
        }
        Kind::Text | Kind::ProcessingInstruction | Kind::Comment => {
            let data = Units::from_units(alloc, data_in(&world.tree, node))?;
            Ok(Some(data))
        }
        Kind::Document | Kind::DocumentType => Ok(None),
    }
}

// Replaces all children of an element or a fragment by a new Text, or by nothing for the empty text ("string replace all").
fn string_replace_all(
    world: &mut World,
    alloc: Global,
    parent: NodeId,
    text: Units,
) -> Result<(), AllocError>
    requires whole { IsWhole world.old }
    requires held { HasNode world.old.tree.forest parent }
    requires kind { kind_passes may_be_parent world.old.tree.forest parent ≡ true }
    requires no_document { is_of_kind Document world.old.tree.forest parent ≡ false }
    requires room { text ≢ [] → world.old.tree.made < 4294967295 }
    ensures replaced { OnOk result (Follows world.old world.new (string_replace_all text parent)) }
    ensures kept { KeepsLabels world.old world.new }
    ensures whole { IsWhole world.new }
{
    if text.is_empty() {
        return world.replace_children_checked(alloc, parent, None);
    }
    let document = document_in(&world.tree, parent);
    let child = make_text(world, alloc, document, text)?;
    world.replace_children_checked(alloc, parent, Some(child))
}

/// Sets the data of a node, or replaces its children by one Text; does nothing for a Document and a doctype ("set text content").
pub fn set_text_content(
    world: &mut World,
    alloc: Global,
    node: NodeId,
    text: Units,
) -> Result<(), AllocError>
    requires whole { IsWhole world.old }
    requires held { HasNode world.old.tree.forest node }
    requires room { makes_text (unwatched world.old) node text ≡ true →
        world.old.tree.made < 4294967295 }
    ensures set { OnOk result (Follows world.old world.new (set_text_content node text)) }
    ensures markers { OnOk result (StandByEdits world.old world.new
        (set_text_content_edits node text)) }
    ensures left { kind_passes is_character_data world.old.tree.forest node ≡ true →
        OnErr result (world.new ≡ record world.old { observers = world.new.observers }) }
    ensures kept { KeepsLabels world.old world.new }
    ensures whole { IsWhole world.new }
{
    match kind_in(&world.tree, node) {
        Kind::Element | Kind::DocumentFragment => string_replace_all(world, alloc, node, text),
        Kind::Text | Kind::ProcessingInstruction | Kind::Comment => set_data(
            world,
            alloc,
            node,
            text.units(),
        ),
        Kind::Document | Kind::DocumentType => Ok(()),
    }
}
