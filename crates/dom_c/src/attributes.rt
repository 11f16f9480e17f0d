//! The commands on attributes.

ghost use Rattle.std.specs.Prelude.{◌≡◌, Ok};
ghost use Rattle.dom_model.specs.Commands.Command.{SetAttribute, GetAttribute, HasAttribute, RemoveAttribute, ToggleAttribute, AttributeNames};
ghost use Rattle.dom_session.specs.Sessions.{command_view};
ghost use Rattle.dom_c.specs.Answers.{Answers, Asks};
ghost use Rattle.dom_c.specs.Arguments.{ReadsArgument, choice_in, utf8_name, then_make};
ghost use Rattle.dom_c.specs.WrittenValues.{answer_of_call, as_answered, flag_out};

use crate::argument_fault::ArgumentFault;
use crate::arguments::{choice_of, name_of, units_of};
use crate::handle::Handle;
use dom_session::{Attributes, Command, NodeId};
use std::alloc::Global;

// Reads the arguments of `hp_set_attribute`.
fn read_set_attribute(
    alloc: Global,
    element: u32,
    name: &[u8],
    value: &[u16],
) -> Result<Command, ArgumentFault>
    ensures { ReadsArgument command_view result
        (then_make (utf8_name name.now) (λ name. Ok (SetAttribute element name value.now))) }
{
    let name = name_of(alloc, name)?;
    let value = units_of(alloc, value)?;
    Ok(Command::Attributes(Attributes::SetAttribute(NodeId::new(element), name, value)))
}

/// Sets an attribute.
#[unsafe(no_mangle)]
pub extern "C" fn hp_set_attribute(
    handle: &mut Handle,
    alloc: Global,
    element: u32,
    name: &[u8],
    value: &[u16],
) -> u8
    ensures { Answers handle.old handle.new
        (then_make (utf8_name name.now) (λ name. Ok (SetAttribute element name value.now))) result }
{
    handle.take(read_set_attribute(alloc, element, name, value))
}

/// Finds the value of an attribute: `hp_text` reads the answer, and has none if it is null.
#[unsafe(no_mangle)]
pub extern "C" fn hp_get_attribute(
    handle: &mut Handle,
    alloc: Global,
    element: u32,
    name: &[u8],
) -> u8
    ensures { Answers handle.old handle.new
        (then_make (utf8_name name.now) (λ name. Ok (GetAttribute element name))) result }
{
    handle.take(name_of(alloc, name).map(|name| Command::Attributes(Attributes::GetAttribute(
        NodeId::new(element),
        name,
    ))))
}

/// Writes whether there is an attribute of that name. It takes no memory, and a session that has ended answers with `HP_ENDED`.
#[unsafe(no_mangle)]
pub extern "C" fn hp_has_attribute(
    handle: &mut Handle,
    element: u32,
    name: &[u8],
    is_there: &mut u8,
) -> u8
    ensures answers { Asks handle.old handle.new
        (then_make (utf8_name name.now) (λ name. Ok (HasAttribute element name))) result }
    ensures told { is_there.new ≡ flag_out (answer_of_call handle.new (as_answered result)) is_there.old }
{
    handle.has_attribute(NodeId::new(element), name, is_there)
}

/// Removes an attribute.
#[unsafe(no_mangle)]
pub extern "C" fn hp_remove_attribute(
    handle: &mut Handle,
    alloc: Global,
    element: u32,
    name: &[u8],
) -> u8
    ensures { Answers handle.old handle.new
        (then_make (utf8_name name.now) (λ name. Ok (RemoveAttribute element name))) result }
{
    handle.take(name_of(alloc, name).map(|name| Command::Attributes(Attributes::RemoveAttribute(
        NodeId::new(element),
        name,
    ))))
}

// Reads the arguments of `hp_toggle_attribute`.
fn read_toggle_attribute(
    alloc: Global,
    element: u32,
    name: &[u8],
    force: u8,
) -> Result<Command, ArgumentFault>
    ensures { ReadsArgument command_view result
        (then_make (utf8_name name.now) (λ name. then_make (choice_in force) (λ force.
        Ok (ToggleAttribute element name force)))) }
{
    let name = name_of(alloc, name)?;
    let force = choice_of(force)?;
    Ok(Command::Attributes(Attributes::ToggleAttribute(NodeId::new(element), name, force)))
}

/// Adds or removes an attribute. `force` is 0 to remove, 1 to add, and 2 to toggle.
#[unsafe(no_mangle)]
pub extern "C" fn hp_toggle_attribute(
    handle: &mut Handle,
    alloc: Global,
    element: u32,
    name: &[u8],
    force: u8,
    is_there: &mut u8,
) -> u8
    ensures answers { Answers handle.old handle.new
        (then_make (utf8_name name.now) (λ name. then_make (choice_in force) (λ force.
        Ok (ToggleAttribute element name force)))) result }
    ensures told { is_there.new ≡ flag_out (answer_of_call handle.new result) is_there.old }
{
    handle.take_flag(read_toggle_attribute(alloc, element, name, force), is_there)
}

/// Finds the names of the attributes, in order: `hp_count` and `hp_name_at` read the answer.
#[unsafe(no_mangle)]
pub extern "C" fn hp_attribute_names(handle: &mut Handle, element: u32) -> u8
    ensures { Answers handle.old handle.new (Ok (AttributeNames element)) result }
{
    handle.take(Ok(Command::Attributes(Attributes::AttributeNames(NodeId::new(element)))))
}
