//! The notified observers, the answer of `hp_notify`.

ghost use Rattle.std.specs.Prelude.{◌≡◌, ℕ, Option, option_and_then};
ghost use Rattle.dom_c.specs.WrittenValues.{last_answer_of};
ghost use Rattle.dom_c.specs.ReplyItems.{look_up_status, looked_up, or_before};
ghost use Rattle.dom_c.specs.Records.{notice_at};

use crate::handle::Handle;
use crate::handle_state::HandleState;
use crate::status::{HP_CLOSED, HP_NOT_THERE, HP_OK, HP_OUT_OF_MEMORY};
use dom_session::{Answer, Reply};

/// A notice: the number of the observer, and the number of its records.
#[repr(C)]
#[derive(Clone, Copy, Debug)]
pub struct Notice {
    pub observer: u32,
    pub records: usize,
}

impl HandleState {
    fn notice_at(&self, index: usize) -> Option<Notice>
        ensures { result ≡ option_and_then (notice_at index) (last_answer_of self.now) }
    {
        match &self.reply {
            Some(Reply::Done(Answer::Notified(told))) => match told.as_slice().get(index) {
                Some(found) => Some(Notice {
                    observer: found.observer.number(),
                    records: found.records.len(),
                }),
                None => None,
            },
            _ => None,
        }
    }
}

/// Writes the observer that `hp_notify` notified at an index, and the number of its records.
#[unsafe(no_mangle)]
pub extern "C" fn hp_notice_at(handle: &mut Handle, index: usize, notice: &mut Notice) -> u8
    ensures kept { handle.new.slot.kept ≡ handle.old.slot.kept }
    ensures status { result ≡ look_up_status handle.old (notice_at index) }
    ensures notice { notice.new ≡ or_before (looked_up handle.old (notice_at index)) notice.old }
{
    if !handle.is_open {
        return HP_CLOSED;
    }
    let kept = &handle.slot.lend().kept;
    if kept.ended {
        return HP_OUT_OF_MEMORY;
    }
    match kept.notice_at(index) {
        Some(found) => {
            *notice = found;
            HP_OK
        }
        None => HP_NOT_THERE,
    }
}
