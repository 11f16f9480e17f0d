//! From a reply to its line.

ghost use Rattle.std.specs.Prelude.{◌≡◌, [], ◌∷◌, IfOk, codes};
ghost use Rattle.json.specs.Token.{string, key};
ghost use Rattle.dom_model.specs.Commands.Refusal.{name_of_own};
ghost use Rattle.dom_model.specs.Commands.Printed.{reply_line, reply_json, answer_json};
ghost use Rattle.dom_commands.specs.Views.{reply_view, brief_view, answer_view};
ghost use Rattle.dom_wire.specs.Prints.{tokens_of, Adds};

use crate::position_printer::{
    write_description, write_ends, write_iterator, write_static_ends, write_walker,
};
use crate::records::{write_notified, write_records};
use crate::rows::write_rows;
use crate::values::{
    write_maybe_number, write_maybe_units, write_names, write_numbers, write_order, write_units,
};
use dom_commands::{Answer, Brief, Reply};
use dom_kinds::Exception;
use dom_model::OwnError;
use json::Writer;
use std::alloc::{AllocError, Global};

/// Returns the line of a reply, with its newline: compact JSON, keys in order.
pub fn write_reply(alloc: Global, reply: &Reply) -> Result<Vec<u8>, AllocError>
    ensures { IfOk result (λ line. line.items ≡ reply_line (reply_view reply.now)) }
{
    let mut writer = Writer::new(Vec::with_capacity(alloc, 128)?);
    write_object(alloc, reply, &mut writer)?;
    let mut line = writer.into_inner();
    line.push(b'\n')?;
    Ok(line)
}

fn write_object(alloc: Global, reply: &Reply, writer: &mut Writer) -> Result<(), AllocError>
    ensures { Adds result writer.old writer.new (tokens_of (reply_json (reply_view reply.now))) }
{
    match reply {
        Reply::Brief(brief) => write_brief(*brief, writer),
        Reply::Done(answer) => {
            writer.begin_object()?;
            writer.key("ok")?;
            write_answer(alloc, answer, writer)?;
            writer.end_object()
        }
    }
}

fn write_brief(brief: Brief, writer: &mut Writer) -> Result<(), AllocError>
    ensures { Adds result writer.old writer.new (tokens_of (reply_json (brief_view brief))) }
{
    writer.begin_object()?;
    match brief {
        Brief::Nothing => {
            writer.key("ok")?;
            writer.null()?;
        }
        Brief::Number(number) => {
            writer.key("ok")?;
            writer.u64(u64::from(number))?;
        }
        Brief::MaybeNumber(number) => {
            writer.key("ok")?;
            write_maybe_number(number, writer)?;
        }
        Brief::Dom(error) => write_error(error.name(), writer)?,
        Brief::Own(error) => write_error(own_name(error), writer)?,
    }
    writer.end_object()
}

fn write_error(name: &str, writer: &mut Writer) -> Result<(), AllocError>
    ensures { Adds result writer.old writer.new (key (codes "error") ∷ string name.now ∷ []) }
{
    writer.key("error")?;
    writer.string(name)
}

// Returns the name of a refusal that is not the standard's.
fn own_name(error: OwnError) -> &'static str
    ensures { result.now ≡ name_of_own error }
{
    match error {
        OwnError::LineTooLong => "line-too-long",
        OwnError::BadJson => "bad-json",
        OwnError::BadCommand => "bad-command",
        OwnError::BadArguments => "bad-arguments",
        OwnError::NoSuchObject => "no-such-object",
        OwnError::Limit => "limit",
        OwnError::InUse => "in-use",
    }
}

fn write_answer(alloc: Global, answer: &Answer, writer: &mut Writer) -> Result<(), AllocError>
    ensures { Adds result writer.old writer.new (tokens_of (answer_json (answer_view answer.now))) }
{
    match answer {
        Answer::Count(count) => writer.u64(*count as u64),
        Answer::Numbers(numbers) => write_numbers(numbers.as_slice(), writer),
        Answer::Flag(flag) => writer.boolean(*flag),
        Answer::Order(order) => write_order(*order, writer),
        Answer::Units(units) => write_units(alloc, units.units(), writer),
        Answer::MaybeUnits(units) => write_maybe_units(alloc, units, writer),
        Answer::Names(names) => write_names(names.as_slice(), writer),
        Answer::NodeAt(node) => write_description(node, writer),
        Answer::Rows(rows) => write_rows(alloc, rows.as_slice(), writer),
        Answer::Ends(start, end) => write_ends(*start, *end, writer),
        Answer::StaticEnds(start, end, is_valid) => {
            write_static_ends(*start, *end, *is_valid, writer)
        }
        Answer::IteratorAt(root, reference, is_before) => {
            write_iterator(*root, *reference, *is_before, writer)
        }
        Answer::WalkerAt(root, current) => write_walker(*root, *current, writer),
        Answer::Records(records) => write_records(alloc, records.as_slice(), writer),
        Answer::Notified(told) => write_notified(alloc, told.as_slice(), writer),
    }
}
