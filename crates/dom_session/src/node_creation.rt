//! The commands that make nodes.

ghost use Rattle.std.specs.Prelude.{◌≡◌, ◌≤◌, IfOk, option_map, string_bytes, OnErr};
ghost use Rattle.dom_model.specs.Worlds.World.{document_label};
ghost use Rattle.dom_model.specs.Commands.AnswerMaking.{doctype_label, closes_instruction};
ghost use Rattle.dom_model.specs.Commands.Command.{NewDocument, CreateElement, CreateText, CreateComment, CreatePI, CreateDoctype, CreateFragment};
ghost use Rattle.dom_commands.specs.Brief.{reply_of};
ghost use Rattle.dom_commands.specs.Views.{making_view, reply_view};
ghost use Rattle.dom_edit.specs.Whole.{IsShown};
ghost use Rattle.dom_session.specs.SessionViews.{IsStep};
ghost use Rattle.dom_session.specs.OutOfMemory.{KeepsWholeWorld, IsAsItWas};
ghost use Rattle.dom_session.specs.Refusals.{making_refusal};
ghost use Rattle.dom_session.specs.AnswerBounds.{numbered};

use dom_commands::{Brief, Making};
use dom_edit::{Content, World};
use dom_kinds::{DomError, Kind, Label, is_doctype_name, is_element_name};
use dom_model::OwnError;
use dom_tree::NodeId;
use dom_units::Units;
use std::alloc::{AllocError, Global};

/// Returns the label of a Document.
pub(crate) fn document_label() -> Label
    ensures { result ≡ document_label }
{
    Label::nameless(Kind::Document)
}

// Returns why a document may not get a new node.
fn refusal(world: &World, numbers: u64, document: NodeId) -> Option<Brief>
    ensures { option_map (λ reply. reply_view (reply_of reply)) result
        ≡ making_refusal world.now numbers document }
{
    if !world.tree.holds(document) {
        return Some(Brief::Own(OwnError::NoSuchObject));
    }
    if world.tree.label(document).kind != Kind::Document {
        return Some(Brief::Dom(DomError::TypeError));
    }
    if numbers <= world.tree.made() {
        return Some(Brief::Own(OwnError::Limit));
    }
    None
}

/// Makes a Document.
pub(crate) fn new_document(world: &mut World, numbers: u64) -> Result<Brief, AllocError>
    requires numbers { numbers ≤ 4294967295 }
    requires shown { IsShown world.old }
    ensures step { IfOk result (λ reply. IsStep world.old world.new (numbered numbers) NewDocument
        (reply_of reply)) }
    ensures left { OnErr result (KeepsWholeWorld world.old world.new) }
    ensures as_it_was { OnErr result (IsAsItWas world.old world.new) }
{
    if numbers <= world.tree.made() {
        return Ok(Brief::Own(OwnError::Limit));
    }
    let id = world.make(document_label(), Content::nothing(), None)?;
    Ok(Brief::Number(id.number()))
}

/// Makes an Element.
#[inline(always)]
pub(crate) fn create_element(
    world: &mut World,
    numbers: u64,
    alloc: Global,
    document: NodeId,
    name: &str,
) -> Result<Brief, AllocError>
    requires numbers { numbers ≤ 4294967295 }
    requires shown { IsShown world.old }
    ensures step { IfOk result (λ reply. IsStep world.old world.new (numbered numbers)
        (CreateElement document name.now) (reply_of reply)) }
    ensures left { OnErr result (KeepsWholeWorld world.old world.new) }
    ensures as_it_was { OnErr result (IsAsItWas world.old world.new) }
{
    if let Some(reply) = refusal(world, numbers, document) {
        return Ok(reply);
    }
    if !is_element_name(name) {
        return Ok(Brief::Dom(DomError::InvalidCharacterError));
    }
    let label = Label::named(alloc, Kind::Element, name)?;
    let id = world.make(label, Content::nothing(), Some(document))?;
    Ok(Brief::Number(id.number()))
}

/// Makes a Text.
#[inline(always)]
pub(crate) fn create_text(
    world: &mut World,
    numbers: u64,
    alloc: Global,
    document: NodeId,
    text: Units,
) -> Result<Brief, AllocError>
    requires numbers { numbers ≤ 4294967295 }
    requires shown { IsShown world.old }
    ensures step { IfOk result (λ reply. IsStep world.old world.new (numbered numbers)
        (CreateText document text) (reply_of reply)) }
    ensures left { OnErr result (KeepsWholeWorld world.old world.new) }
    ensures as_it_was { OnErr result (IsAsItWas world.old world.new) }
{
    if let Some(reply) = refusal(world, numbers, document) {
        return Ok(reply);
    }
    let body = Content::of_text(alloc, text)?;
    let id = world.make(Label::nameless(Kind::Text), body, Some(document))?;
    Ok(Brief::Number(id.number()))
}

/// Makes a Comment.
pub(crate) fn create_comment(
    world: &mut World,
    numbers: u64,
    alloc: Global,
    document: NodeId,
    text: Units,
) -> Result<Brief, AllocError>
    requires numbers { numbers ≤ 4294967295 }
    requires shown { IsShown world.old }
    ensures step { IfOk result (λ reply. IsStep world.old world.new (numbered numbers)
        (CreateComment document text) (reply_of reply)) }
    ensures left { OnErr result (KeepsWholeWorld world.old world.new) }
    ensures as_it_was { OnErr result (IsAsItWas world.old world.new) }
{
    if let Some(reply) = refusal(world, numbers, document) {
        return Ok(reply);
    }
    let body = Content::of_text(alloc, text)?;
    let id = world.make(Label::nameless(Kind::Comment), body, Some(document))?;
    Ok(Brief::Number(id.number()))
}

// Returns whether the units contain `?>`, which would end a processing instruction.
fn closes_instruction(units: &[u16]) -> bool
    ensures { result ≡ closes_instruction units.now }
{
    let mut after_question_mark = false;
    for unit in units {
        if after_question_mark && *unit == 62 {
            return true;
        }
        after_question_mark = *unit == 63;
    }
    false
}

/// Makes a ProcessingInstruction.
pub(crate) fn create_instruction(
    world: &mut World,
    numbers: u64,
    alloc: Global,
    document: NodeId,
    target: String,
    text: Units,
) -> Result<Brief, AllocError>
    requires numbers { numbers ≤ 4294967295 }
    requires shown { IsShown world.old }
    ensures step { IfOk result (λ reply. IsStep world.old world.new (numbered numbers)
        (CreatePI document (string_bytes target) text) (reply_of reply)) }
    ensures left { OnErr result (KeepsWholeWorld world.old world.new) }
    ensures as_it_was { OnErr result (IsAsItWas world.old world.new) }
{
    if let Some(reply) = refusal(world, numbers, document) {
        return Ok(reply);
    }
    if !is_element_name(target.as_str()) {
        return Ok(Brief::Dom(DomError::InvalidCharacterError));
    }
    if closes_instruction(text.units()) {
        return Ok(Brief::Dom(DomError::InvalidCharacterError));
    }
    let label = Label::named(alloc, Kind::ProcessingInstruction, target.as_str())?;
    let body = Content::of_text(alloc, text)?;
    let id = world.make(label, body, Some(document))?;
    Ok(Brief::Number(id.number()))
}

/// Makes a DocumentType.
pub(crate) fn create_doctype(
    world: &mut World,
    numbers: u64,
    alloc: Global,
    document: NodeId,
    name: String,
    public_id: String,
    system_id: String,
) -> Result<Brief, AllocError>
    requires numbers { numbers ≤ 4294967295 }
    requires shown { IsShown world.old }
    ensures step { IfOk result (λ reply. IsStep world.old world.new (numbered numbers)
        (CreateDoctype document (string_bytes name) (string_bytes public_id)
        (string_bytes system_id)) (reply_of reply)) }
    ensures left { OnErr result (KeepsWholeWorld world.old world.new) }
    ensures as_it_was { OnErr result (IsAsItWas world.old world.new) }
{
    if let Some(reply) = refusal(world, numbers, document) {
        return Ok(reply);
    }
    if !is_doctype_name(name.as_str()) {
        return Ok(Brief::Dom(DomError::InvalidCharacterError));
    }
    let label = Label::doctype(alloc, name, public_id, system_id)?;
    let id = world.make(label, Content::nothing(), Some(document))?;
    Ok(Brief::Number(id.number()))
}

/// Makes a DocumentFragment.
pub(crate) fn create_fragment(
    world: &mut World,
    numbers: u64,
    document: NodeId,
) -> Result<Brief, AllocError>
    requires numbers { numbers ≤ 4294967295 }
    requires shown { IsShown world.old }
    ensures step { IfOk result (λ reply. IsStep world.old world.new (numbered numbers)
        (CreateFragment document) (reply_of reply)) }
    ensures left { OnErr result (KeepsWholeWorld world.old world.new) }
    ensures as_it_was { OnErr result (IsAsItWas world.old world.new) }
{
    if let Some(reply) = refusal(world, numbers, document) {
        return Ok(reply);
    }
    let label = Label::nameless(Kind::DocumentFragment);
    let id = world.make(label, Content::nothing(), Some(document))?;
    Ok(Brief::Number(id.number()))
}

/// Answers the commands that make nodes.
pub(crate) fn make_nodes(
    world: &mut World,
    numbers: u64,
    alloc: Global,
    command: Making,
) -> Result<Brief, AllocError>
    requires numbers { numbers ≤ 4294967295 }
    requires shown { IsShown world.old }
    ensures step { IfOk result (λ reply. IsStep world.old world.new (numbered numbers)
        (making_view command) (reply_of reply)) }
    ensures left { OnErr result (KeepsWholeWorld world.old world.new) }
    ensures as_it_was { OnErr result (IsAsItWas world.old world.new) }
{
    match command {
        Making::NewDocument => new_document(world, numbers),
        Making::CreateElement(document, name) => create_element(
            world,
            numbers,
            alloc,
            document,
            name.as_str(),
        ),
        Making::CreateText(document, text) => create_text(world, numbers, alloc, document, text),
        Making::CreateComment(document, text) => create_comment(
            world, numbers, alloc, document, text,
        ),
        Making::CreatePI(document, target, text) => create_instruction(
            world, numbers, alloc, document, target, text,
        ),
        Making::CreateDoctype(document, name, public_id, system_id) => create_doctype(
            world, numbers, alloc, document, name, public_id, system_id,
        ),
        Making::CreateFragment(document) => create_fragment(world, numbers, document),
    }
}
