//! Arguments read by their shapes.

ghost use Rattle.std.specs.Prelude.{◌<◌, ◌≤◌, map, length};
ghost use Rattle.serde_json.specs.View.{view};
ghost use Rattle.dom_model.specs.Commands.Table.{a_number, a_number_or_null, a_string, a_text, a_text_or_null, a_flag, a_flag_or_null, a_filter, a_move, the_options, no_arguments};
ghost use Rattle.dom_model.specs.Commands.Line.{with_argument, arguments_from};
ghost use Rattle.dom_wire.specs.Reads.{Decodes};
ghost use Rattle.dom_wire.specs.Shapes.{shape_view, arguments_view};

use crate::arguments::{Arguments, Shape};
use crate::filters::{course_in, rules_in};
use crate::options::options_in;
use crate::read_error::ReadError;
use crate::texts::{number_in, text_in};
use dom_commands::Units;
use dom_model::OwnError;
use serde_json::Value;
use std::alloc::Global;

/// Reads as many values as shapes, each of its shape.
pub(crate) fn arguments_of(
    alloc: Global,
    shapes: &[Shape],
    values: &[Value],
) -> Result<Arguments, ReadError>
    requires { length shapes.now ≤ 4 }
    ensures { Decodes arguments_view result
        (arguments_from 0 (map shape_view shapes.now) (map view values.now) no_arguments) }
{
    if shapes.len() != values.len() {
        return Err(ReadError::Own(OwnError::BadArguments));
    }
    let mut arguments = Arguments::new(alloc);
    for (place, shape) in shapes.iter().enumerate() {
        if let Err(error) = take(alloc, *shape, &values[place], place, &mut arguments) {
            return Err(error);
        }
    }
    Ok(arguments)
}

// Reads the next argument, at its place.
fn take(
    alloc: Global,
    shape: Shape,
    value: &Value,
    place: usize,
    arguments: &mut Arguments,
) -> Result<(), ReadError>
    requires { place < 4 }
    ensures { Decodes (λ _. arguments_view arguments.new) result
        (with_argument (shape_view shape) (view value.now) place (arguments_view arguments.old)) }
{
    match shape {
        Shape::Number => take_number(value, place, arguments),
        Shape::NumberOrNull => take_number_or_null(value, arguments),
        Shape::String => take_string(alloc, value, place, arguments),
        Shape::Text => take_text(alloc, value, arguments),
        Shape::TextOrNull => take_text_or_null(alloc, value, arguments),
        Shape::Flag => take_flag(value, arguments),
        Shape::FlagOrNull => take_flag_or_null(value, arguments),
        Shape::Filter => take_rules(alloc, value, arguments),
        Shape::Move => take_course(value, arguments),
        Shape::Options => take_options(alloc, value, arguments),
    }
}

fn take_number(value: &Value, place: usize, arguments: &mut Arguments) -> Result<(), ReadError>
    requires { place < 4 }
    ensures { Decodes (λ _. arguments_view arguments.new) result
        (with_argument a_number (view value.now) place (arguments_view arguments.old)) }
{
    match number_in(value) {
        Some(number) => {
            arguments.numbers[place] = number;
            Ok(())
        }
        None => Err(ReadError::Own(OwnError::BadArguments)),
    }
}

fn take_number_or_null(value: &Value, arguments: &mut Arguments) -> Result<(), ReadError>
    ensures { Decodes (λ _. arguments_view arguments.new) result
        (with_argument a_number_or_null (view value.now) 0 (arguments_view arguments.old)) }
{
    if value.is_null() {
        arguments.number = None;
        return Ok(());
    }
    match number_in(value) {
        Some(number) => {
            arguments.number = Some(number);
            Ok(())
        }
        None => Err(ReadError::Own(OwnError::BadArguments)),
    }
}

fn take_string(
    alloc: Global,
    value: &Value,
    place: usize,
    arguments: &mut Arguments,
) -> Result<(), ReadError>
    requires { place < 4 }
    ensures { Decodes (λ _. arguments_view arguments.new) result
        (with_argument a_string (view value.now) place (arguments_view arguments.old)) }
{
    let Some(text) = value.as_str() else {
        return Err(ReadError::Own(OwnError::BadArguments));
    };
    let Ok(copy) = String::from_str(alloc, text) else {
        return Err(ReadError::Memory);
    };
    arguments.strings[place] = copy;
    Ok(())
}

fn take_text(alloc: Global, value: &Value, arguments: &mut Arguments) -> Result<(), ReadError>
    ensures { Decodes (λ _. arguments_view arguments.new) result
        (with_argument a_text (view value.now) 0 (arguments_view arguments.old)) }
{
    match text_in(alloc, value) {
        Ok(text) => {
            arguments.text = text;
            Ok(())
        }
        Err(error) => Err(error),
    }
}

fn take_text_or_null(
    alloc: Global,
    value: &Value,
    arguments: &mut Arguments,
) -> Result<(), ReadError>
    ensures { Decodes (λ _. arguments_view arguments.new) result
        (with_argument a_text_or_null (view value.now) 0 (arguments_view arguments.old)) }
{
    if value.is_null() {
        arguments.text = Units::new(alloc);
        return Ok(());
    }
    match text_in(alloc, value) {
        Ok(text) => {
            arguments.text = text;
            Ok(())
        }
        Err(error) => Err(error),
    }
}

fn take_flag(value: &Value, arguments: &mut Arguments) -> Result<(), ReadError>
    ensures { Decodes (λ _. arguments_view arguments.new) result
        (with_argument a_flag (view value.now) 0 (arguments_view arguments.old)) }
{
    match value.as_bool() {
        Some(flag) => {
            arguments.flag = flag;
            Ok(())
        }
        None => Err(ReadError::Own(OwnError::BadArguments)),
    }
}

fn take_flag_or_null(value: &Value, arguments: &mut Arguments) -> Result<(), ReadError>
    ensures { Decodes (λ _. arguments_view arguments.new) result
        (with_argument a_flag_or_null (view value.now) 0 (arguments_view arguments.old)) }
{
    if value.is_null() {
        arguments.flag_or_null = None;
        return Ok(());
    }
    match value.as_bool() {
        Some(flag) => {
            arguments.flag_or_null = Some(flag);
            Ok(())
        }
        None => Err(ReadError::Own(OwnError::BadArguments)),
    }
}

fn take_rules(alloc: Global, value: &Value, arguments: &mut Arguments) -> Result<(), ReadError>
    ensures { Decodes (λ _. arguments_view arguments.new) result
        (with_argument a_filter (view value.now) 0 (arguments_view arguments.old)) }
{
    match rules_in(alloc, value) {
        Ok(rules) => {
            arguments.rules = rules;
            Ok(())
        }
        Err(error) => Err(error),
    }
}

fn take_course(value: &Value, arguments: &mut Arguments) -> Result<(), ReadError>
    ensures { Decodes (λ _. arguments_view arguments.new) result
        (with_argument a_move (view value.now) 0 (arguments_view arguments.old)) }
{
    match course_in(value) {
        Some(direction) => {
            arguments.direction = direction;
            Ok(())
        }
        None => Err(ReadError::Own(OwnError::BadArguments)),
    }
}

fn take_options(alloc: Global, value: &Value, arguments: &mut Arguments) -> Result<(), ReadError>
    ensures { Decodes (λ _. arguments_view arguments.new) result
        (with_argument the_options (view value.now) 0 (arguments_view arguments.old)) }
{
    match options_in(alloc, value) {
        Ok(options) => {
            arguments.options = options;
            Ok(())
        }
        Err(error) => Err(error),
    }
}
