//! The commands that make nodes.

ghost use Rattle.std.specs.Prelude.{◌≡◌, Ok};
ghost use Rattle.dom_model.specs.Commands.Command.{NewDocument, CreateElement, CreateText, CreateComment, CreatePI, CreateDoctype, CreateFragment};
ghost use Rattle.dom_commands.specs.Views.{making_view};
ghost use Rattle.dom_c.specs.Answers.{Answers};
ghost use Rattle.dom_c.specs.Arguments.{ReadsArgument, utf8_name, then_make};
ghost use Rattle.dom_c.specs.WrittenValues.{answer_of_call, number_out};

use crate::argument_fault::ArgumentFault;
use crate::arguments::{lent_name, name_of, units_of};
use crate::handle::Handle;
use dom_session::{Making, NodeId};
use std::alloc::Global;

/// Makes a Document.
#[unsafe(no_mangle)]
pub extern "C" fn hp_new_document(handle: &mut Handle, document: &mut u32) -> u8
    ensures answers { Answers handle.old handle.new (Ok NewDocument) result }
    ensures told { document.new ≡ number_out (answer_of_call handle.new result) document.old }
{
    handle.make(Ok(Making::NewDocument), document)
}

/// Makes an Element of that name.
#[unsafe(no_mangle)]
pub extern "C" fn hp_create_element(
    handle: &mut Handle,
    document: u32,
    name: &[u8],
    element: &mut u32,
) -> u8
    ensures answers { Answers handle.old handle.new
        (then_make (utf8_name name.now) (λ name. Ok (CreateElement document name))) result }
    ensures told { element.new ≡ number_out (answer_of_call handle.new result) element.old }
{
    handle.create_element(NodeId::new(document), lent_name(name), element)
}

/// Makes a Text of that data.
#[unsafe(no_mangle)]
pub extern "C" fn hp_create_text(
    handle: &mut Handle,
    alloc: Global,
    document: u32,
    data: &[u16],
    text: &mut u32,
) -> u8
    ensures answers { Answers handle.old handle.new (Ok (CreateText document data.now)) result }
    ensures told { text.new ≡ number_out (answer_of_call handle.new result) text.old }
{
    handle.create_text(NodeId::new(document), units_of(alloc, data), text)
}

// Reads the arguments of `hp_create_comment`.
fn read_create_comment(alloc: Global, document: u32, data: &[u16]) -> Result<Making, ArgumentFault>
    ensures { ReadsArgument making_view result
        (Ok (CreateComment document data.now)) }
{
    let data = units_of(alloc, data)?;
    Ok(Making::CreateComment(NodeId::new(document), data))
}

/// Makes a Comment of that data.
#[unsafe(no_mangle)]
pub extern "C" fn hp_create_comment(
    handle: &mut Handle,
    alloc: Global,
    document: u32,
    data: &[u16],
    comment: &mut u32,
) -> u8
    ensures answers { Answers handle.old handle.new (Ok (CreateComment document data.now)) result }
    ensures told { comment.new ≡ number_out (answer_of_call handle.new result) comment.old }
{
    handle.make(read_create_comment(alloc, document, data), comment)
}

// Reads the arguments of `hp_create_pi`.
fn read_create_pi(
    alloc: Global,
    document: u32,
    target: &[u8],
    data: &[u16],
) -> Result<Making, ArgumentFault>
    ensures { ReadsArgument making_view result
        (then_make (utf8_name target.now) (λ target. Ok (CreatePI document target data.now))) }
{
    let target = name_of(alloc, target)?;
    let data = units_of(alloc, data)?;
    Ok(Making::CreatePI(NodeId::new(document), target, data))
}

/// Makes a ProcessingInstruction of that target and data.
#[unsafe(no_mangle)]
pub extern "C" fn hp_create_pi(
    handle: &mut Handle,
    alloc: Global,
    document: u32,
    target: &[u8],
    data: &[u16],
    instruction: &mut u32,
) -> u8
    ensures answers { Answers handle.old handle.new
        (then_make (utf8_name target.now) (λ target. Ok (CreatePI document target data.now))) result }
    ensures told { instruction.new ≡ number_out (answer_of_call handle.new result) instruction.old }
{
    handle.make(read_create_pi(alloc, document, target, data), instruction)
}

// Reads the arguments of `hp_create_doctype`.
fn read_create_doctype(
    alloc: Global,
    document: u32,
    name: &[u8],
    public_id: &[u8],
    system_id: &[u8],
) -> Result<Making, ArgumentFault>
    ensures { ReadsArgument making_view result
        (then_make (utf8_name name.now) (λ name. then_make (utf8_name public_id.now)
        (λ public_id. then_make (utf8_name system_id.now) (λ system_id.
        Ok (CreateDoctype document name public_id system_id))))) }
{
    let name = name_of(alloc, name)?;
    let public_id = name_of(alloc, public_id)?;
    let system_id = name_of(alloc, system_id)?;
    Ok(Making::CreateDoctype(NodeId::new(document), name, public_id, system_id))
}

/// Makes a DocumentType of that name, with its public and its system id.
#[unsafe(no_mangle)]
pub extern "C" fn hp_create_doctype(
    handle: &mut Handle,
    alloc: Global,
    document: u32,
    name: &[u8],
    public_id: &[u8],
    system_id: &[u8],
    doctype: &mut u32,
) -> u8
    ensures answers { Answers handle.old handle.new
        (then_make (utf8_name name.now) (λ name. then_make (utf8_name public_id.now)
        (λ public_id. then_make (utf8_name system_id.now) (λ system_id.
        Ok (CreateDoctype document name public_id system_id))))) result }
    ensures told { doctype.new ≡ number_out (answer_of_call handle.new result) doctype.old }
{
    handle.make(
        read_create_doctype(alloc, document, name, public_id, system_id),
        doctype,
    )
}

/// Makes a DocumentFragment.
#[unsafe(no_mangle)]
pub extern "C" fn hp_create_fragment(handle: &mut Handle, document: u32, fragment: &mut u32) -> u8
    ensures answers { Answers handle.old handle.new (Ok (CreateFragment document)) result }
    ensures told { fragment.new ≡ number_out (answer_of_call handle.new result) fragment.old }
{
    handle.make(Ok(Making::CreateFragment(NodeId::new(document))), fragment)
}
