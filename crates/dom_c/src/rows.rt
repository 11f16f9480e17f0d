//! Reading the rows of a tree, the answer of `hp_tree`.

ghost use Rattle.std.specs.Prelude.{◌≡◌, List, ℕ, Option, option_map, option_and_then};
ghost use Rattle.dom_model.specs.Commands.Reply.{TreeRow as PlainRow};
ghost use Rattle.dom_c.specs.WrittenValues.{last_answer_of};
ghost use Rattle.dom_c.specs.ReplyItems.{look_up_status, looked_up, or_before};
ghost use Rattle.dom_c.specs.Rows.{row_in, row_out, row_at, row_name_at, row_text_of, row_text_at, row_attribute_name_at, row_attribute_value_at};

use crate::borrowed_text::{Bytes, Text};
use crate::handle::Handle;
use crate::handle_state::HandleState;
use crate::labels::name_part;
use crate::status::{HP_CLOSED, HP_NOT_THERE, HP_OK, HP_OUT_OF_MEMORY};
use dom_kinds::NodeType;
use dom_session::{Answer, Kind, Reply, TreeRow};

/// A row of a tree: the node's depth below the printed root, its number, the standard's number of its kind (`nodeType`), and the number
/// of its attributes.
#[repr(C)]
#[derive(Clone, Copy, Debug)]
pub struct Row {
    pub depth: usize,
    pub node: u32,
    pub type_: u16,
    pub attributes: usize,
}

// Returns a row as C reads it.
fn row_told(row: &TreeRow) -> Row
    ensures { result ≡ row_out row.now }
{
    Row {
        depth: row.depth,
        node: row.number.number(),
        type_: row.label.kind.number(),
        attributes: row.body.attribute_count(),
    }
}

// Borrows the data, if the kind has data.
fn row_text_of(row: &TreeRow) -> Option<&[u16]>
    ensures { option_map (λ text. text.now) result ≡ row_text_of row.now }
{
    match row.label.kind {
        Kind::Text | Kind::ProcessingInstruction | Kind::Comment => Some(row.body.text()),
        Kind::Element | Kind::Document | Kind::DocumentType | Kind::DocumentFragment => None,
    }
}

impl HandleState {
    fn row(&self, index: usize) -> Option<&TreeRow>
        ensures { option_map (λ row. row.now) result
            ≡ option_and_then (row_in index) (last_answer_of self.now) }
    {
        match &self.reply {
            Some(Reply::Done(Answer::Rows(rows))) => rows.as_slice().get(index),
            _ => None,
        }
    }
}

/// Writes the row at an index of the last answer.
#[unsafe(no_mangle)]
pub extern "C" fn hp_row_at(handle: &mut Handle, index: usize, row: &mut Row) -> u8
    ensures kept { handle.new.slot.kept ≡ handle.old.slot.kept }
    ensures status { result ≡ look_up_status handle.old (row_at index) }
    ensures row { row.new ≡ or_before (looked_up handle.old (row_at index)) row.old }
{
    if !handle.is_open {
        return HP_CLOSED;
    }
    let kept = &handle.slot.lend().kept;
    if kept.ended {
        return HP_OUT_OF_MEMORY;
    }
    match kept.row(index) {
        Some(found) => {
            *row = row_told(found);
            HP_OK
        }
        None => HP_NOT_THERE,
    }
}

/// Lends a part of the name of a row's node: 0 the name of an element or doctype, or the target of a processing instruction;
/// 1 the public id and 2 the system id of a doctype.
#[unsafe(no_mangle)]
pub extern "C" fn hp_row_name<'a>(
    handle: &'a mut Handle,
    index: usize,
    part: u8,
    out: &mut Bytes<'a>,
) -> u8
    ensures status { result ≡ look_up_status handle.old (row_name_at index part) }
    ensures name { out.new.bytes.now ≡ or_before (looked_up handle.old (row_name_at index part))
        out.old.bytes.now }
{
    if !handle.is_open {
        return HP_CLOSED;
    }
    let kept = &handle.slot.lend().kept;
    if kept.ended {
        return HP_OUT_OF_MEMORY;
    }
    if let Some(row) = kept.row(index)
        && let Some(name) = name_part(&row.label, part)
    {
        out.bytes = name;
        return HP_OK;
    }
    HP_NOT_THERE
}

/// Lends the data of a row's node. A Text, a Comment and a ProcessingInstruction have data.
#[unsafe(no_mangle)]
pub extern "C" fn hp_row_text<'a>(handle: &'a mut Handle, index: usize, out: &mut Text<'a>) -> u8
    ensures status { result ≡ look_up_status handle.old (row_text_at index) }
    ensures text { out.new.units.now ≡ or_before (looked_up handle.old (row_text_at index))
        out.old.units.now }
{
    if !handle.is_open {
        return HP_CLOSED;
    }
    let kept = &handle.slot.lend().kept;
    if kept.ended {
        return HP_OUT_OF_MEMORY;
    }
    if let Some(row) = kept.row(index)
        && let Some(text) = row_text_of(row)
    {
        out.units = text;
        return HP_OK;
    }
    HP_NOT_THERE
}

/// Lends the name of the attribute at a place among those of a row.
#[unsafe(no_mangle)]
pub extern "C" fn hp_row_attribute_name<'a>(
    handle: &'a mut Handle,
    index: usize,
    at: usize,
    out: &mut Bytes<'a>,
) -> u8
    ensures status { result ≡ look_up_status handle.old (row_attribute_name_at index at) }
    ensures name { out.new.bytes.now ≡ or_before (looked_up handle.old
        (row_attribute_name_at index at)) out.old.bytes.now }
{
    if !handle.is_open {
        return HP_CLOSED;
    }
    let kept = &handle.slot.lend().kept;
    if kept.ended {
        return HP_OUT_OF_MEMORY;
    }
    if let Some(row) = kept.row(index)
        && let Some((name, _)) = row.body.attribute_at(at)
    {
        out.bytes = name.as_bytes();
        return HP_OK;
    }
    HP_NOT_THERE
}

/// Lends the value of the attribute at a place among those of a row.
#[unsafe(no_mangle)]
pub extern "C" fn hp_row_attribute_value<'a>(
    handle: &'a mut Handle,
    index: usize,
    at: usize,
    out: &mut Text<'a>,
) -> u8
    ensures status { result ≡ look_up_status handle.old (row_attribute_value_at index at) }
    ensures value { out.new.units.now ≡ or_before (looked_up handle.old
        (row_attribute_value_at index at)) out.old.units.now }
{
    if !handle.is_open {
        return HP_CLOSED;
    }
    let kept = &handle.slot.lend().kept;
    if kept.ended {
        return HP_OUT_OF_MEMORY;
    }
    if let Some(row) = kept.row(index)
        && let Some((_, value)) = row.body.attribute_at(at)
    {
        out.units = value.units();
        return HP_OK;
    }
    HP_NOT_THERE
}
