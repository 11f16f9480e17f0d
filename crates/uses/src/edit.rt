//! Calls of `dom_edit`.

ghost use Rattle.std.specs.Prelude.{◌≡◌, ◌<◌, ℕ, List, true, IfOk, OnOk};
ghost use Rattle.dom_model.specs.declared.Kind.TheVariants.{Document};
ghost use Rattle.dom_model.specs.Forests.Forest.{HasNode, entry_in};
ghost use Rattle.dom_model.specs.Forests.Nodes.{is_of_kind};
ghost use Rattle.dom_model.specs.Forests.Texts.{units_of};
ghost use Rattle.dom_model.specs.Worlds.World.{first_world};
ghost use Rattle.dom_model.specs.DataAndCopies.Data.{content_in};
ghost use Rattle.dom_edit.specs.Whole.{IsWhole, Keeps};
ghost use Rattle.uses.specs.Paragraph.{empty_paragraph, paragraph};

use dom_edit::{Content, Refusal, World};
use dom_kinds::{Kind, Label};
use dom_point::Point;
use dom_tree::NodeId;
use dom_units::Units;
use std::alloc::{AllocError, Global};

/// Appends an element to the Document of a new world.
pub fn put_element(alloc: Global, world: &mut World) -> Result<(), AllocError>
    requires keeps { Keeps world.old first_world }
    requires whole { IsWhole world.old }
    ensures keeps { OnOk result (Keeps world.new empty_paragraph) }
    ensures whole { IsWhole world.new }
{
    let document = NodeId::new(0);
    let label = Label::named(alloc, Kind::Element, "p")?;
    let element = world.make(label, Content::nothing(), Some(document))?;
    world.insert_checked(alloc, document, element, None)?;
    Ok(())
}

/// Returns a world with an element in its Document.
pub fn empty_paragraph(alloc: Global) -> Result<World, AllocError>
    ensures keeps { IfOk result (λ world. Keeps world empty_paragraph) }
    ensures whole { IfOk result IsWhole }
{
    let mut world = World::new(alloc)?;
    put_element(alloc, &mut world)?;
    Ok(world)
}

/// Appends a Text with data to the element.
pub fn put_text(alloc: Global, world: &mut World, text: &str) -> Result<(), AllocError>
    requires keeps { Keeps world.old empty_paragraph }
    requires whole { IsWhole world.old }
    ensures keeps { OnOk result (Keeps world.new (paragraph (units_of text.now))) }
    ensures whole { IsWhole world.new }
{
    let document = NodeId::new(0);
    let element = NodeId::new(1);
    let label = Label::nameless(Kind::Text);
    let data = Content::of_text(alloc, Units::from_str(alloc, text)?)?;
    let child = world.make(label, data, Some(document))?;
    world.insert_checked(alloc, element, child, None)?;
    Ok(())
}

/// Returns a world with an element in its Document, and a Text with data in the element.
pub fn paragraph(alloc: Global, text: &str) -> Result<World, AllocError>
    ensures keeps { IfOk result (λ world. Keeps world (paragraph (units_of text.now))) }
    ensures whole { IfOk result IsWhole }
{
    let mut world = empty_paragraph(alloc)?;
    put_text(alloc, &mut world, text)?;
    Ok(world)
}

/// Appends a new Text with data to a parent, and returns its number.
pub fn append_text(
    alloc: Global,
    world: &mut World,
    document: NodeId,
    parent: NodeId,
    text: &str,
) -> Result<NodeId, Refusal>
    requires whole { IsWhole world.old }
    requires document_kind { is_of_kind Document world.old.tree.forest document ≡ true }
    requires parent_held { HasNode world.old.tree.forest parent }
    requires room { world.old.tree.made < 4294967295 }
    ensures held { IfOk result (λ id. HasNode world.new.tree.forest id) }
    ensures data { IfOk result (λ id. (content_in (entry_in world.new.tree.forest id)).text
        ≡ units_of text.now) }
    ensures whole { IsWhole world.new }
{
    let label = Label::nameless(Kind::Text);
    let data = Content::of_text(alloc, Units::from_str(alloc, text)?)?;
    let child = world.make(label, data, Some(document))?;
    world.append(alloc, parent, child)?;
    Ok(child)
}

/// Makes a live range over all data of the Text, removes the Text, and returns the range's ends: the Text's old place in its parent.
pub fn remove_text(world: &mut World) -> Result<(Point, Point), AllocError>
    requires keeps { (text : List ℕ) × Keeps world.old (paragraph text) }
    requires whole { IsWhole world.old }
    ensures start { IfOk result (λ ends. ends.0 ≡ record { node = 1; offset = 0 }) }
    ensures end { IfOk result (λ ends. ends.1 ≡ record { node = 1; offset = 0 }) }
{
    let node = NodeId::new(2);
    let start = Point { node, offset: 0 };
    let end = Point {
        node,
        offset: world.tree.length(node),
    };
    let range = world.ranges.make(&world.tree, start, end)?;
    world.remove(node)?;
    Ok(world.ranges.ends(range))
}

/// Makes a world with a Text, removes the Text, and returns the ends of a live range over all its data.
pub fn ends_after_removal(alloc: Global, text: &str) -> Result<(Point, Point), AllocError>
    ensures start { IfOk result (λ ends. ends.0 ≡ record { node = 1; offset = 0 }) }
    ensures end { IfOk result (λ ends. ends.1 ≡ record { node = 1; offset = 0 }) }
{
    let mut world = paragraph(alloc, text)?;
    remove_text(&mut world)
}
