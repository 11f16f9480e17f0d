//! The commands on attributes (DOM Standard, "Interface Element").

ghost use Rattle.std.specs.Prelude.{◌≡◌, is_some, map, string_bytes, IfOk, OnErr, true};
ghost use Rattle.dom_model.specs.Forests.Attributes.{attribute_value, attribute_names};
ghost use Rattle.dom_model.specs.Forests.Forest.{HasNode, entry_in};
ghost use Rattle.dom_model.specs.DataAndCopies.Data.{content_in};
ghost use Rattle.dom_model.specs.Commands.Command.{SetAttribute, GetAttribute, HasAttribute, RemoveAttribute, ToggleAttribute, AttributeNames};
ghost use Rattle.dom_model.specs.Commands.Guards.{Bounds};
ghost use Rattle.dom_edit.specs.Whole.{IsShown};
ghost use Rattle.dom_commands.specs.Views.{attributes_view};
ghost use Rattle.dom_session.specs.SessionViews.{IsStep, RepliesTo};
ghost use Rattle.dom_session.specs.OutOfMemory.{KeepsWholeWorld};
ghost use Rattle.dom_session.specs.GoingOn.{goes_on, is_unchanged_in};

use crate::refusals::kind_refusal;
use dom_commands::{Answer, Attributes, Brief, Reply};
use dom_edit::{Content, World};
use dom_kinds::{DomError, Kind, is_attribute_name};
use dom_tree::{NodeId, Tree};
use dom_units::Units;
use std::alloc::{AllocError, Global};

/// Sets an attribute of an element.
pub(crate) fn set_attribute(
    world: &mut World,
    alloc: Global,
    element: NodeId,
    name: String,
    value: Units,
) -> Result<Reply, AllocError>
    requires shown { IsShown world.old }
    ensures step { IfOk result (λ reply. (b : Bounds) →
        IsStep world.old world.new b (SetAttribute element (string_bytes name) value) reply) }
    ensures left { OnErr result (KeepsWholeWorld world.old world.new) }
    ensures unchanged { OnErr result (world.new ≡ world.old) }
{
    if let Some(reply) = kind_refusal(world, element, Kind::Element) {
        return Ok(reply);
    }
    if !is_attribute_name(name.as_str()) {
        return Ok(Reply::Brief(Brief::Dom(DomError::InvalidCharacterError)));
    }
    dom_data::set_attribute(world, alloc, element, name, value)?;
    Ok(Reply::Brief(Brief::Nothing))
}

// Borrows the content of a node.
fn content_in(tree: &Tree<Content>, node: NodeId) -> &Content
    requires { HasNode tree.now.forest node }
    ensures { result.now ≡ content_in (entry_in tree.now.forest node) }
{
    tree.body(node)
}

// Returns a copy of the value of an attribute, if it is there.
fn value_in(
    tree: &Tree<Content>,
    alloc: Global,
    element: NodeId,
    name: &str,
) -> Result<Option<Units>, AllocError>
    requires { HasNode tree.now.forest element }
    ensures { IfOk result (λ value. value ≡ attribute_value name.now
        (content_in (entry_in tree.now.forest element)).attributes) }
{
    match content_in(tree, element).attribute(name) {
        None => Ok(None),
        Some(value) => Ok(Some(value.try_clone(alloc)?)),
    }
}

/// Returns the value of an attribute of an element, if it is there.
pub(crate) fn get_attribute(
    world: &World,
    alloc: Global,
    element: NodeId,
    name: &str,
) -> Result<Reply, AllocError>
    requires shown { IsShown world.now }
    ensures { IfOk result (λ reply. (b : Bounds) →
        IsStep world.now world.now b (GetAttribute element name.now) reply) }
{
    if let Some(reply) = kind_refusal(world, element, Kind::Element) {
        return Ok(reply);
    }
    let value = value_in(&world.tree, alloc, element, name)?;
    Ok(Reply::Done(Answer::MaybeUnits(value)))
}

// Returns whether there is an attribute of that name.
fn has_in(tree: &Tree<Content>, element: NodeId, name: &str) -> bool
    requires { HasNode tree.now.forest element }
    ensures { result ≡ is_some (attribute_value name.now
        (content_in (entry_in tree.now.forest element)).attributes) }
{
    content_in(tree, element).attribute(name).is_some()
}

/// Returns whether an element has an attribute of that name.
pub(crate) fn has_attribute(world: &World, element: NodeId, name: &str) -> Reply
    ensures step { (b : Bounds) →
        IsStep world.now world.now b (HasAttribute element name.now) result }
    ensures own { RepliesTo world.now (HasAttribute element name.now) result }
{
    if let Some(reply) = kind_refusal(world, element, Kind::Element) {
        return reply;
    }
    Reply::Done(Answer::Flag(has_in(&world.tree, element, name)))
}

/// Removes an attribute of an element, if it is there.
pub(crate) fn remove_attribute(
    world: &mut World,
    element: NodeId,
    name: &str,
) -> Result<Reply, AllocError>
    requires shown { IsShown world.old }
    ensures step { IfOk result (λ reply. (b : Bounds) →
        IsStep world.old world.new b (RemoveAttribute element name.now) reply) }
    ensures left { OnErr result (KeepsWholeWorld world.old world.new) }
    ensures unchanged { OnErr result (world.new ≡ world.old) }
{
    if let Some(reply) = kind_refusal(world, element, Kind::Element) {
        return Ok(reply);
    }
    dom_data::remove_attribute(world, element, name)?;
    Ok(Reply::Brief(Brief::Nothing))
}

/// Adds or removes an attribute of an element, and returns whether it is there afterwards.
pub(crate) fn toggle_attribute(
    world: &mut World,
    alloc: Global,
    element: NodeId,
    name: String,
    force: Option<bool>,
) -> Result<Reply, AllocError>
    requires shown { IsShown world.old }
    ensures step { IfOk result (λ reply. (b : Bounds) →
        IsStep world.old world.new b (ToggleAttribute element (string_bytes name) force) reply) }
    ensures left { OnErr result (KeepsWholeWorld world.old world.new) }
    ensures unchanged { OnErr result (world.new ≡ world.old) }
{
    if let Some(reply) = kind_refusal(world, element, Kind::Element) {
        return Ok(reply);
    }
    if !is_attribute_name(name.as_str()) {
        return Ok(Reply::Brief(Brief::Dom(DomError::InvalidCharacterError)));
    }
    let present = dom_data::toggle_attribute(world, alloc, element, name, force)?;
    Ok(Reply::Done(Answer::Flag(present)))
}

// Returns copies of the names of attributes, in order.
fn names_in(content: &Content, alloc: Global) -> Result<Vec<String>, AllocError>
    ensures { IfOk result (λ names. map string_bytes names.items
        ≡ attribute_names content.now.attributes) }
{
    let count = content.attribute_count();
    let mut names: Vec<String> = Vec::with_capacity(alloc, count)?;
    for index in 0..count {
        let (name, _) = content.pair_at(index);
        names.push(String::from_str(alloc, name)?)?;
    }
    Ok(names)
}

/// Returns the names of an element's attributes, in order.
pub(crate) fn attribute_names(
    world: &World,
    alloc: Global,
    element: NodeId,
) -> Result<Reply, AllocError>
    requires shown { IsShown world.now }
    ensures { IfOk result (λ reply. (b : Bounds) →
        IsStep world.now world.now b (AttributeNames element) reply) }
{
    if let Some(reply) = kind_refusal(world, element, Kind::Element) {
        return Ok(reply);
    }
    let names = names_in(content_in(&world.tree, element), alloc)?;
    Ok(Reply::Done(Answer::Names(names)))
}

/// Answers the commands on attributes.
pub(crate) fn change_attributes(
    world: &mut World,
    alloc: Global,
    command: Attributes,
) -> Result<Reply, AllocError>
    requires shown { IsShown world.old }
    ensures step { IfOk result (λ reply. (b : Bounds) →
        IsStep world.old world.new b (attributes_view command) reply) }
    ensures left { OnErr result (KeepsWholeWorld world.old world.new) }
    ensures unchanged { goes_on (attributes_view command) ≡ true →
        OnErr result (world.new ≡ world.old) }
    ensures same { is_unchanged_in world.old (attributes_view command) ≡ true →
        OnErr result (world.new ≡ world.old) }
{
    match command {
        Attributes::SetAttribute(element, name, value) => set_attribute(
            world, alloc, element, name, value,
        ),
        Attributes::GetAttribute(element, name) => get_attribute(
            world,
            alloc,
            element,
            name.as_str(),
        ),
        Attributes::HasAttribute(element, name) => Ok(has_attribute(world, element, name.as_str())),
        Attributes::RemoveAttribute(element, name) => remove_attribute(
            world,
            element,
            name.as_str(),
        ),
        Attributes::ToggleAttribute(element, name, force) => toggle_attribute(
            world, alloc, element, name, force,
        ),
        Attributes::AttributeNames(element) => attribute_names(world, alloc, element),
    }
}
