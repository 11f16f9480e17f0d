//! Borrowing from the last answer: bytes and texts, which are valid until the next call with the handle.

ghost use Rattle.std.specs.Prelude.{◌≡◌, List, ℕ, Option, Some, None, option_map, option_and_then, string_bytes};
ghost use Rattle.dom_c.specs.WrittenValues.{last_answer_of};
ghost use Rattle.dom_c.specs.ReplyItems.{look_up_status, looked_up, or_before, reply_text, name_at, line_status, line_lent};

use crate::handle::Handle;
use crate::handle_state::HandleState;
use crate::status::{HP_CLOSED, HP_NOT_THERE, HP_OK, HP_OUT_OF_MEMORY};
use dom_session::{Answer, Reply};

// (Before a call it holds a pointer that is not null; in C the header's inline forms see to that.)
/// Borrowed bytes.
#[repr(C)]
pub struct Bytes<'a> {
    pub bytes: &'a [u8],
}

// (The same holds of its pointer.)
/// Borrowed UTF-16 units.
#[repr(C)]
pub struct Text<'a> {
    pub units: &'a [u16],
}

impl HandleState {
    fn text(&self) -> Option<&[u16]>
        ensures { option_map (λ text. text.now) result
            ≡ option_and_then reply_text (last_answer_of self.now) }
    {
        match &self.reply {
            Some(Reply::Done(Answer::Units(text))) => Some(text.units()),
            Some(Reply::Done(Answer::MaybeUnits(Some(text)))) => Some(text.units()),
            _ => None,
        }
    }

    fn name_at(&self, index: usize) -> Option<&[u8]>
        ensures { option_map (λ name. name.now) result
            ≡ option_and_then (name_at index) (last_answer_of self.now) }
    {
        match &self.reply {
            Some(Reply::Done(Answer::Names(names))) => match names.as_slice().get(index) {
                Some(name) => Some(name.as_bytes()),
                None => None,
            },
            _ => None,
        }
    }
}

/// Lends the text of the last answer; there is none if it is null.
#[unsafe(no_mangle)]
pub extern "C" fn hp_text<'a>(handle: &'a mut Handle, out: &mut Text<'a>) -> u8
    ensures status { result ≡ look_up_status handle.old reply_text }
    ensures text { out.new.units.now ≡ or_before (looked_up handle.old reply_text) out.old.units.now }
{
    if !handle.is_open {
        return HP_CLOSED;
    }
    let kept = &handle.slot.lend().kept;
    if kept.ended {
        return HP_OUT_OF_MEMORY;
    }
    match kept.text() {
        Some(text) => {
            out.units = text;
            HP_OK
        }
        None => HP_NOT_THERE,
    }
}

/// Lends the name at an index of the last answer.
#[unsafe(no_mangle)]
pub extern "C" fn hp_name_at<'a>(handle: &'a mut Handle, index: usize, out: &mut Bytes<'a>) -> u8
    ensures status { result ≡ look_up_status handle.old (name_at index) }
    ensures name { out.new.bytes.now ≡ or_before (looked_up handle.old (name_at index))
        out.old.bytes.now }
{
    if !handle.is_open {
        return HP_CLOSED;
    }
    let kept = &handle.slot.lend().kept;
    if kept.ended {
        return HP_OUT_OF_MEMORY;
    }
    match kept.name_at(index) {
        Some(name) => {
            out.bytes = name;
            HP_OK
        }
        None => HP_NOT_THERE,
    }
}

/// Lends the line of the reply to the last line, with its newline. It is empty before the first line.
#[unsafe(no_mangle)]
pub extern "C" fn hp_reply_line<'a>(handle: &'a mut Handle, out: &mut Bytes<'a>) -> u8
    ensures status { result ≡ line_status handle.old }
    ensures line { out.new.bytes.now ≡ or_before (line_lent handle.old) out.old.bytes.now }
{
    if !handle.is_open {
        return HP_CLOSED;
    }
    let kept = &handle.slot.lend().kept;
    if kept.ended {
        return HP_OUT_OF_MEMORY;
    }
    out.bytes = kept.line.as_slice();
    HP_OK
}
