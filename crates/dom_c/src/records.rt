//! Reading records of mutations, the answers of `hp_notify` and `hp_take_records`.

ghost use Rattle.std.specs.Prelude.{◌≡◌, List, ℕ, Option, length, map, option_map, option_and_then};
ghost use Rattle.dom_model.specs.MutationObservers.Record.{Record as PlainRecord};
ghost use Rattle.dom_c.specs.WrittenValues.{last_answer_of};
ghost use Rattle.dom_session.specs.Neighbours.{laid_over};
ghost use Rattle.dom_c.specs.ReplyItems.{look_up_status, looked_up, or_before, laid_or_before};
ghost use Rattle.dom_c.specs.Records.{records_in, record_in, type_number, record_out, record_at, records_read_at, added_at, removed_at, record_name_at, old_value_at};

use crate::borrowed_text::{Bytes, Text};
use crate::handle::Handle;
use crate::handle_state::HandleState;
use crate::status::{HP_CLOSED, HP_NOT_THERE, HP_OK, HP_OUT_OF_MEMORY};
use crate::write_positions::node_number;
use dom_session::{Answer, Record as MutationRecord, RecordType, Reply};

/// The record of an attribute.
pub const HP_ATTRIBUTES: u8 = 0;
/// The record of data.
pub const HP_CHARACTER_DATA: u8 = 1;
/// The record of children.
pub const HP_CHILD_LIST: u8 = 2;

/// A record: its type (`HP_ATTRIBUTES`, `HP_CHARACTER_DATA` or `HP_CHILD_LIST`), its target, the numbers of added and removed nodes, and
/// the siblings beside them, or `HP_NONE`.
#[repr(C)]
#[derive(Clone, Copy, Debug)]
pub struct Record {
    pub type_: u8,
    pub target: u32,
    pub added: usize,
    pub removed: usize,
    pub previous: u32,
    pub next: u32,
}

// Returns the number of a type.
fn type_number(what: RecordType) -> u8
    ensures { result ≡ type_number what }
{
    match what {
        RecordType::Attributes => HP_ATTRIBUTES,
        RecordType::CharacterData => HP_CHARACTER_DATA,
        RecordType::ChildList => HP_CHILD_LIST,
    }
}

// Returns a record as C reads it.
fn record_told(found: &MutationRecord) -> Record
    ensures { result ≡ record_out found.now }
{
    Record {
        type_: type_number(found.what),
        target: found.target.number(),
        added: found.added.len(),
        removed: found.removed.len(),
        previous: node_number(found.previous),
        next: node_number(found.next),
    }
}

// Copies records, as C reads them, over the front of an array, as many as there is room for.
fn lay_over(records: &[MutationRecord], into: &mut [Record])
    ensures { into.new ≡ laid_over (map record_out records.now) into.old }
{
    let mut at = 0;
    for found in records {
        if at == into.len() {
            return;
        }
        into[at] = record_told(found);
        at += 1;
    }
}

impl HandleState {
    // Borrows the records of a notice; those that were taken count as the first.
    fn records(&self, notice: usize) -> Option<&[MutationRecord]>
        ensures { option_map (λ records. records.now) result
            ≡ option_and_then (records_in notice) (last_answer_of self.now) }
    {
        match &self.reply {
            Some(Reply::Done(Answer::Records(records))) if notice == 0 => Some(records.as_slice()),
            Some(Reply::Done(Answer::Notified(told))) => match told.as_slice().get(notice) {
                Some(found) => Some(found.records.as_slice()),
                None => None,
            },
            _ => None,
        }
    }

    // Borrows a record of a notice.
    fn record(&self, notice: usize, index: usize) -> Option<&MutationRecord>
        ensures { option_map (λ found. found.now) result
            ≡ option_and_then (record_in notice index) (last_answer_of self.now) }
    {
        match self.records(notice) {
            Some(records) => records.get(index),
            None => None,
        }
    }
}

/// Writes the record at an index among those of a notice. The records that `hp_take_records` took count as notice 0.
#[unsafe(no_mangle)]
pub extern "C" fn hp_record_at(
    handle: &mut Handle,
    notice: usize,
    index: usize,
    record: &mut Record,
) -> u8
    ensures kept { handle.new.slot.kept ≡ handle.old.slot.kept }
    ensures status { result ≡ look_up_status handle.old (record_at notice index) }
    ensures found { record.new ≡ or_before (looked_up handle.old (record_at notice index))
        record.old }
{
    if !handle.is_open {
        return HP_CLOSED;
    }
    let kept = &handle.slot.lend().kept;
    if kept.ended {
        return HP_OUT_OF_MEMORY;
    }
    match kept.record(notice, index) {
        Some(found) => {
            *record = record_told(found);
            HP_OK
        }
        None => HP_NOT_THERE,
    }
}

/// Copies all records of a notice into an array, as many as there is room for, and writes their count, which may be larger. The rest of
/// the array stays.
#[unsafe(no_mangle)]
pub extern "C" fn hp_records_into(
    handle: &mut Handle,
    notice: usize,
    records: &mut [Record],
    count: &mut usize,
) -> u8
    ensures kept { handle.new.slot.kept ≡ handle.old.slot.kept }
    ensures status { result ≡ look_up_status handle.old (records_read_at notice) }
    ensures count { count.new ≡ or_before (option_map length
        (looked_up handle.old (records_read_at notice))) count.old }
    ensures copied { records.new ≡ laid_or_before (looked_up handle.old (records_read_at notice))
        records.old }
{
    if !handle.is_open {
        return HP_CLOSED;
    }
    let kept = &handle.slot.lend().kept;
    if kept.ended {
        return HP_OUT_OF_MEMORY;
    }
    match kept.records(notice) {
        Some(found) => {
            lay_over(found, records);
            *count = found.len();
            HP_OK
        }
        None => HP_NOT_THERE,
    }
}

/// Writes the node at a place among the added nodes of a record.
#[unsafe(no_mangle)]
pub extern "C" fn hp_record_added_at(
    handle: &mut Handle,
    notice: usize,
    index: usize,
    at: usize,
    node: &mut u32,
) -> u8
    ensures kept { handle.new.slot.kept ≡ handle.old.slot.kept }
    ensures status { result ≡ look_up_status handle.old (added_at notice index at) }
    ensures node { node.new ≡ or_before (looked_up handle.old (added_at notice index at)) node.old }
{
    if !handle.is_open {
        return HP_CLOSED;
    }
    let kept = &handle.slot.lend().kept;
    if kept.ended {
        return HP_OUT_OF_MEMORY;
    }
    if let Some(found) = kept.record(notice, index)
        && let Some(added) = found.added.as_slice().get(at)
    {
        *node = added.number();
        return HP_OK;
    }
    HP_NOT_THERE
}

/// Writes the node at a place among the removed nodes of a record.
#[unsafe(no_mangle)]
pub extern "C" fn hp_record_removed_at(
    handle: &mut Handle,
    notice: usize,
    index: usize,
    at: usize,
    node: &mut u32,
) -> u8
    ensures kept { handle.new.slot.kept ≡ handle.old.slot.kept }
    ensures status { result ≡ look_up_status handle.old (removed_at notice index at) }
    ensures node { node.new ≡ or_before (looked_up handle.old (removed_at notice index at))
        node.old }
{
    if !handle.is_open {
        return HP_CLOSED;
    }
    let kept = &handle.slot.lend().kept;
    if kept.ended {
        return HP_OUT_OF_MEMORY;
    }
    if let Some(found) = kept.record(notice, index)
        && let Some(removed) = found.removed.as_slice().get(at)
    {
        *node = removed.number();
        return HP_OK;
    }
    HP_NOT_THERE
}

/// Lends the attribute name of a record; there is none if it is null.
#[unsafe(no_mangle)]
pub extern "C" fn hp_record_name<'a>(
    handle: &'a mut Handle,
    notice: usize,
    index: usize,
    out: &mut Bytes<'a>,
) -> u8
    ensures status { result ≡ look_up_status handle.old (record_name_at notice index) }
    ensures name { out.new.bytes.now ≡ or_before (looked_up handle.old
        (record_name_at notice index)) out.old.bytes.now }
{
    if !handle.is_open {
        return HP_CLOSED;
    }
    let kept = &handle.slot.lend().kept;
    if kept.ended {
        return HP_OUT_OF_MEMORY;
    }
    if let Some(found) = kept.record(notice, index)
        && let Some(name) = &found.name
    {
        out.bytes = name.as_bytes();
        return HP_OK;
    }
    HP_NOT_THERE
}

/// Lends the old value of a record; there is none if it is null.
#[unsafe(no_mangle)]
pub extern "C" fn hp_record_old_value<'a>(
    handle: &'a mut Handle,
    notice: usize,
    index: usize,
    out: &mut Text<'a>,
) -> u8
    ensures status { result ≡ look_up_status handle.old (old_value_at notice index) }
    ensures value { out.new.units.now ≡ or_before (looked_up handle.old (old_value_at notice index))
        out.old.units.now }
{
    if !handle.is_open {
        return HP_CLOSED;
    }
    let kept = &handle.slot.lend().kept;
    if kept.ended {
        return HP_OUT_OF_MEMORY;
    }
    if let Some(found) = kept.record(notice, index)
        && let Some(value) = &found.old_value
    {
        out.units = value.units();
        return HP_OK;
    }
    HP_NOT_THERE
}
