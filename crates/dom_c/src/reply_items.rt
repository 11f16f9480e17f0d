//! Reading the last answer: its text, and its parts by their index.

ghost use Rattle.std.specs.Prelude.{◌≡◌, List, ℕ, Option, length, option_map, option_and_then, slice_get, string_bytes};
ghost use Rattle.dom_c.specs.WrittenValues.{last_answer_of};
ghost use Rattle.dom_session.specs.Neighbours.{laid_over};
ghost use Rattle.dom_c.specs.ReplyItems.{look_up_status, looked_up, or_before, laid_or_before, item_count, numbers_in, listed_number};

use crate::handle::Handle;
use crate::handle_state::HandleState;
use crate::status::{HP_CLOSED, HP_NOT_THERE, HP_OK, HP_OUT_OF_MEMORY};
use dom_session::{Answer, Reply};

// Copies numbers over the front of an array, as many as there is room for.
fn lay_over(numbers: &[u32], into: &mut [u32])
    ensures { into.new ≡ laid_over numbers.now into.old }
{
    let mut at = 0;
    for number in numbers {
        if at == into.len() {
            return;
        }
        into[at] = *number;
        at += 1;
    }
}

impl HandleState {
    // Returns the number of parts of the last answer, if it has parts.
    fn count(&self) -> Option<usize>
        ensures { result ≡ option_and_then item_count (last_answer_of self.now) }
    {
        match &self.reply {
            Some(Reply::Done(Answer::Numbers(numbers))) => Some(numbers.len()),
            Some(Reply::Done(Answer::Names(names))) => Some(names.len()),
            Some(Reply::Done(Answer::Rows(rows))) => Some(rows.len()),
            Some(Reply::Done(Answer::Records(records))) => Some(records.len()),
            Some(Reply::Done(Answer::Notified(told))) => Some(told.len()),
            _ => None,
        }
    }

    fn numbers(&self) -> Option<&[u32]>
        ensures { option_map (λ numbers. numbers.now) result
            ≡ option_and_then numbers_in (last_answer_of self.now) }
    {
        match &self.reply {
            Some(Reply::Done(Answer::Numbers(numbers))) => Some(numbers.as_slice()),
            _ => None,
        }
    }

    fn listed_number(&self, index: usize) -> Option<u32>
        ensures { result ≡ option_and_then (listed_number index) (last_answer_of self.now) }
    {
        match &self.reply {
            Some(Reply::Done(Answer::Numbers(numbers))) => numbers.as_slice().get(index).copied(),
            _ => None,
        }
    }
}

/// Writes the number of parts of the last answer: numbers, names, rows, records or notices.
#[unsafe(no_mangle)]
pub extern "C" fn hp_count(handle: &mut Handle, count: &mut usize) -> u8
    ensures kept { handle.new.slot.kept ≡ handle.old.slot.kept }
    ensures status { result ≡ look_up_status handle.old item_count }
    ensures count { count.new ≡ or_before (looked_up handle.old item_count) count.old }
{
    if !handle.is_open {
        return HP_CLOSED;
    }
    let kept = &handle.slot.lend().kept;
    if kept.ended {
        return HP_OUT_OF_MEMORY;
    }
    match kept.count() {
        Some(found) => {
            *count = found;
            HP_OK
        }
        None => HP_NOT_THERE,
    }
}

/// Writes the number at an index of the last answer.
#[unsafe(no_mangle)]
pub extern "C" fn hp_number_at(handle: &mut Handle, index: usize, number: &mut u32) -> u8
    ensures kept { handle.new.slot.kept ≡ handle.old.slot.kept }
    ensures status { result ≡ look_up_status handle.old (listed_number index) }
    ensures number { number.new ≡ or_before (looked_up handle.old (listed_number index))
        number.old }
{
    if !handle.is_open {
        return HP_CLOSED;
    }
    let kept = &handle.slot.lend().kept;
    if kept.ended {
        return HP_OUT_OF_MEMORY;
    }
    match kept.listed_number(index) {
        Some(found) => {
            *number = found;
            HP_OK
        }
        None => HP_NOT_THERE,
    }
}

/// Copies the numbers of the last answer into an array, as many as there is room for, and writes their count, which may be larger.
/// The rest of the array stays.
#[unsafe(no_mangle)]
pub extern "C" fn hp_numbers_into(handle: &mut Handle, numbers: &mut [u32], count: &mut usize) -> u8
    ensures kept { handle.new.slot.kept ≡ handle.old.slot.kept }
    ensures status { result ≡ look_up_status handle.old numbers_in }
    ensures count { count.new ≡ or_before (option_map length (looked_up handle.old numbers_in))
        count.old }
    ensures copied { numbers.new ≡ laid_or_before (looked_up handle.old numbers_in) numbers.old }
{
    if !handle.is_open {
        return HP_CLOSED;
    }
    let kept = &handle.slot.lend().kept;
    if kept.ended {
        return HP_OUT_OF_MEMORY;
    }
    match kept.numbers() {
        Some(found) => {
            lay_over(found, numbers);
            *count = found.len();
            HP_OK
        }
        None => HP_NOT_THERE,
    }
}
