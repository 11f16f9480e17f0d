//! The commands on data and text (DOM Standard, "Interface CharacterData", "Interface Text").

ghost use Rattle.std.specs.Prelude.{◌≡◌, ◌≤◌, option_map, IfOk, OnErr, true};
ghost use Rattle.dom_model.specs.Forests.Kinds.{is_character_data};
ghost use Rattle.dom_model.specs.Commands.Command.{GetData, SetData, AppendData, InsertData, DeleteData, ReplaceData, SubstringData, SplitText, TextContent, SetTextContent, Normalize};
ghost use Rattle.dom_model.specs.Commands.Guards.{Bounds};
ghost use Rattle.dom_edit.specs.Whole.{IsShown};
ghost use Rattle.dom_commands.specs.Views.{texts_view, reply_view};
ghost use Rattle.dom_session.specs.SessionViews.{IsStep};
ghost use Rattle.dom_session.specs.OutOfMemory.{KeepsWholeWorld};
ghost use Rattle.dom_session.specs.GoingOn.{goes_on, is_unchanged_in};
ghost use Rattle.dom_session.specs.AnswerBounds.{numbered};
ghost use Rattle.dom_session.specs.Refusals.{kind_refusal};

use crate::refusals::{kind_refusal, reply_to};
use dom_commands::{Answer, Brief, Reply, Texts};
use dom_edit::{World, data_in};
use dom_kinds::{DomError, Kind};
use dom_model::OwnError;
use dom_tree::NodeId;
use dom_units::Units;
use std::alloc::{AllocError, Global};

// Returns why a node has no data.
fn refusal(world: &World, node: NodeId) -> Option<Reply>
    ensures { option_map reply_view result ≡ kind_refusal is_character_data world.now node }
{
    if !world.tree.holds(node) {
        return Some(Reply::Brief(Brief::Own(OwnError::NoSuchObject)));
    }
    if !world.tree.has_data(node) {
        return Some(Reply::Brief(Brief::Dom(DomError::TypeError)));
    }
    None
}

/// Returns the data of a node.
pub(crate) fn data(world: &World, alloc: Global, node: NodeId) -> Result<Reply, AllocError>
    requires shown { IsShown world.now }
    ensures { IfOk result (λ reply. (b : Bounds) →
        IsStep world.now world.now b (GetData node) reply) }
{
    if let Some(reply) = refusal(world, node) {
        return Ok(reply);
    }
    let text = Units::from_units(alloc, data_in(&world.tree, node))?;
    Ok(Reply::Done(Answer::Units(text)))
}

/// Replaces all data of a node by a text.
pub(crate) fn set_data(
    world: &mut World,
    alloc: Global,
    node: NodeId,
    text: &[u16],
) -> Result<Reply, AllocError>
    requires shown { IsShown world.old }
    ensures step { IfOk result (λ reply. (b : Bounds) →
        IsStep world.old world.new b (SetData node text.now) reply) }
    ensures left { OnErr result (KeepsWholeWorld world.old world.new) }
    ensures unchanged { OnErr result (world.new ≡ world.old) }
{
    if let Some(reply) = refusal(world, node) {
        return Ok(reply);
    }
    dom_data::set_data(world, alloc, node, text)?;
    Ok(Reply::Brief(Brief::Nothing))
}

/// Replaces a number of units from an offset on by a text.
pub(crate) fn replace_data(
    world: &mut World,
    alloc: Global,
    node: NodeId,
    offset: usize,
    count: usize,
    text: &[u16],
) -> Result<Reply, AllocError>
    requires shown { IsShown world.old }
    ensures step { IfOk result (λ reply. (b : Bounds) →
        IsStep world.old world.new b (ReplaceData node offset count text.now) reply) }
    ensures left { OnErr result (KeepsWholeWorld world.old world.new) }
    ensures unchanged { OnErr result (world.new ≡ world.old) }
{
    if let Some(reply) = refusal(world, node) {
        return Ok(reply);
    }
    match dom_data::replace_data(world, alloc, node, offset, count, text) {
        Ok(()) => Ok(Reply::Brief(Brief::Nothing)),
        Err(refusal) => reply_to(refusal),
    }
}

/// Appends a text to the data of a node.
pub(crate) fn append_data(
    world: &mut World,
    alloc: Global,
    node: NodeId,
    text: &[u16],
) -> Result<Reply, AllocError>
    requires shown { IsShown world.old }
    ensures step { IfOk result (λ reply. (b : Bounds) →
        IsStep world.old world.new b (AppendData node text.now) reply) }
    ensures left { OnErr result (KeepsWholeWorld world.old world.new) }
    ensures unchanged { OnErr result (world.new ≡ world.old) }
{
    if !world.tree.holds(node) {
        return Ok(Reply::Brief(Brief::Own(OwnError::NoSuchObject)));
    }
    let end = world.tree.length(node);
    replace_data(world, alloc, node, end, 0, text)
}

/// Inserts a text into the data of a node, at an offset.
pub(crate) fn insert_data(
    world: &mut World,
    alloc: Global,
    node: NodeId,
    offset: u32,
    text: &[u16],
) -> Result<Reply, AllocError>
    requires shown { IsShown world.old }
    ensures step { IfOk result (λ reply. (b : Bounds) →
        IsStep world.old world.new b (InsertData node offset text.now) reply) }
    ensures left { OnErr result (KeepsWholeWorld world.old world.new) }
    ensures unchanged { OnErr result (world.new ≡ world.old) }
{
    replace_data(world, alloc, node, offset as usize, 0, text)
}

/// Deletes a number of units of a node's data, from an offset on.
pub(crate) fn delete_data(
    world: &mut World,
    alloc: Global,
    node: NodeId,
    offset: u32,
    count: u32,
) -> Result<Reply, AllocError>
    requires shown { IsShown world.old }
    ensures step { IfOk result (λ reply. (b : Bounds) →
        IsStep world.old world.new b (DeleteData node offset count) reply) }
    ensures left { OnErr result (KeepsWholeWorld world.old world.new) }
    ensures unchanged { OnErr result (world.new ≡ world.old) }
{
    replace_data(world, alloc, node, offset as usize, count as usize, &[])
}

/// Returns a number of units of a node's data, from an offset on.
pub(crate) fn substring_data(
    world: &World,
    alloc: Global,
    node: NodeId,
    offset: u32,
    count: u32,
) -> Result<Reply, AllocError>
    requires shown { IsShown world.now }
    ensures { IfOk result (λ reply. (b : Bounds) →
        IsStep world.now world.now b (SubstringData node offset count) reply) }
{
    if let Some(reply) = refusal(world, node) {
        return Ok(reply);
    }
    match dom_data::substring(world, alloc, node, offset as usize, count as usize) {
        Ok(units) => Ok(Reply::Done(Answer::Units(units))),
        Err(refusal) => reply_to(refusal),
    }
}

/// Returns the text in a node; none for a Document and a doctype.
pub(crate) fn text_content(world: &World, alloc: Global, node: NodeId) -> Result<Reply, AllocError>
    requires shown { IsShown world.now }
    ensures { IfOk result (λ reply. (b : Bounds) →
        IsStep world.now world.now b (TextContent node) reply) }
{
    if !world.tree.holds(node) {
        return Ok(Reply::Brief(Brief::Own(OwnError::NoSuchObject)));
    }
    let text = dom_data::text_content(world, alloc, node)?;
    Ok(Reply::Done(Answer::MaybeUnits(text)))
}

/// Sets the data of a node to a text, or makes the text its only child.
pub(crate) fn set_text_content(
    world: &mut World,
    numbers: u64,
    alloc: Global,
    node: NodeId,
    text: Units,
) -> Result<Reply, AllocError>
    requires numbers { numbers ≤ 4294967295 }
    requires shown { IsShown world.old }
    ensures step { IfOk result (IsStep world.old world.new (numbered numbers)
        (SetTextContent node text)) }
    ensures left { OnErr result (KeepsWholeWorld world.old world.new) }
{
    if !world.tree.holds(node) {
        return Ok(Reply::Brief(Brief::Own(OwnError::NoSuchObject)));
    }
    if numbers <= world.tree.made() {
        return Ok(Reply::Brief(Brief::Own(OwnError::Limit)));
    }
    dom_data::set_text_content(world, alloc, node, text)?;
    Ok(Reply::Brief(Brief::Nothing))
}

/// Splits a Text at an offset, and returns the new one.
pub(crate) fn split_text(
    world: &mut World,
    numbers: u64,
    alloc: Global,
    text: NodeId,
    offset: u32,
) -> Result<Reply, AllocError>
    requires numbers { numbers ≤ 4294967295 }
    requires shown { IsShown world.old }
    ensures step { IfOk result (IsStep world.old world.new (numbered numbers)
        (SplitText text offset)) }
    ensures left { OnErr result (KeepsWholeWorld world.old world.new) }
{
    if let Some(reply) = kind_refusal(world, text, Kind::Text) {
        return Ok(reply);
    }
    if numbers <= world.tree.made() {
        return Ok(Reply::Brief(Brief::Own(OwnError::Limit)));
    }
    match dom_data::split(world, alloc, text, offset as usize) {
        Ok(new) => Ok(Reply::Brief(Brief::Number(new.number()))),
        Err(refusal) => reply_to(refusal),
    }
}

/// Joins adjacent Texts below a node, and removes empty ones.
pub(crate) fn normalize(world: &mut World, alloc: Global, node: NodeId) -> Result<Reply, AllocError>
    requires shown { IsShown world.old }
    ensures step { IfOk result (λ reply. (b : Bounds) →
        IsStep world.old world.new b (Normalize node) reply) }
    ensures left { OnErr result (KeepsWholeWorld world.old world.new) }
{
    if !world.tree.holds(node) {
        return Ok(Reply::Brief(Brief::Own(OwnError::NoSuchObject)));
    }
    dom_data::normalize(world, alloc, node)?;
    Ok(Reply::Brief(Brief::Nothing))
}

/// Answers the commands on data and text.
pub(crate) fn change_texts(
    world: &mut World,
    numbers: u64,
    alloc: Global,
    command: Texts,
) -> Result<Reply, AllocError>
    requires numbers { numbers ≤ 4294967295 }
    requires shown { IsShown world.old }
    ensures step { IfOk result (IsStep world.old world.new (numbered numbers)
        (texts_view command)) }
    ensures left { OnErr result (KeepsWholeWorld world.old world.new) }
    ensures unchanged { goes_on (texts_view command) ≡ true →
        OnErr result (world.new ≡ world.old) }
    ensures same { is_unchanged_in world.old (texts_view command) ≡ true →
        OnErr result (world.new ≡ world.old) }
{
    match command {
        Texts::GetData(node) => data(world, alloc, node),
        Texts::SetData(node, text) => set_data(world, alloc, node, text.units()),
        Texts::ReplaceData(node, offset, count, text) => replace_data(
            world,
            alloc,
            node,
            offset as usize,
            count as usize,
            text.units(),
        ),
        Texts::SubstringData(node, offset, count) => substring_data(
            world, alloc, node, offset, count,
        ),
        Texts::AppendData(node, text) => append_data(world, alloc, node, text.units()),
        Texts::InsertData(node, offset, text) => insert_data(
            world,
            alloc,
            node,
            offset,
            text.units(),
        ),
        Texts::DeleteData(node, offset, count) => delete_data(world, alloc, node, offset, count),
        Texts::SetTextContent(node, text) => set_text_content(world, numbers, alloc, node, text),
        Texts::SplitText(text, offset) => split_text(world, numbers, alloc, text, offset),
        Texts::TextContent(node) => text_content(world, alloc, node),
        Texts::Normalize(node) => normalize(world, alloc, node),
    }
}
