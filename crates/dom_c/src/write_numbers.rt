//! Writing numbers, flags and orders of an answer through the pointers of C.

ghost use Rattle.std.specs.Prelude.{◌≡◌, ℕ, Result, Ok};
ghost use Rattle.dom_model.specs.Commands.Command.{Command as PlainCommand};
ghost use Rattle.dom_session.specs.Sessions.{command_view, reading_view};
ghost use Rattle.dom_c.specs.Answers.{Answers, Asks};
ghost use Rattle.dom_c.specs.Arguments.{ReadsArgument};
ghost use Rattle.dom_c.specs.WrittenValues.{answer_of_call, answer_of_status, as_answered, number_out, count_out, maybe_number_out, flag_number, flag_out, order_number, order_out};

use crate::argument_fault::ArgumentFault;
use crate::handle::Handle;
use crate::handle_state::HandleState;
use crate::status::{HP_NONE, HP_OK, as_answered};
use dom_session::{Answer, Brief, Command, Reading, Reply};
use std::cmp::Ordering;

/// Returns 1 for true, and 0 for false.
pub(crate) fn flag_number(flag: bool) -> u8
    ensures { result ≡ flag_number flag }
{
    if flag { 1 } else { 0 }
}

fn order_number(order: Ordering) -> i8
    ensures { result ≡ order_number order }
{
    match order {
        Ordering::Less => -1,
        Ordering::Equal => 0,
        Ordering::Greater => 1,
    }
}

impl HandleState {
    /// Writes a number.
    pub(crate) fn write_number(&self, status: u8, number: &mut u32)
        ensures { number.new ≡ number_out (answer_of_status self.now status) number.old }
    {
        if status != HP_OK {
            return;
        }
        match &self.reply {
            Some(Reply::Brief(Brief::Number(found))) => *number = *found,
            Some(Reply::Done(Answer::Count(found))) => {
                if let Ok(found) = u32::try_from(*found) {
                    *number = found;
                }
            }
            _ => {}
        }
    }

    /// Writes a number, or `HP_NONE`.
    pub(crate) fn write_maybe_number(&self, status: u8, number: &mut u32)
        ensures { number.new ≡ maybe_number_out (answer_of_status self.now status) number.old }
    {
        if status != HP_OK {
            return;
        }
        match &self.reply {
            Some(Reply::Brief(Brief::MaybeNumber(Some(found)))) => *number = *found,
            Some(Reply::Brief(Brief::MaybeNumber(None))) => *number = HP_NONE,
            _ => {}
        }
    }

    /// Writes true or false: 1 or 0.
    pub(crate) fn write_flag(&self, status: u8, flag: &mut u8)
        ensures { flag.new ≡ flag_out (answer_of_status self.now status) flag.old }
    {
        if status == HP_OK
            && let Some(Reply::Done(Answer::Flag(found))) = &self.reply
        {
            *flag = flag_number(*found);
        }
    }
}

impl Handle {
    /// Applies a command. Writes a number.
    pub(crate) fn take_number(
        &mut self,
        command: Result<Command, ArgumentFault>,
        number: &mut u32,
    ) -> u8
        ensures answers { (c : Result PlainCommand ℕ) → ReadsArgument command_view command c →
            Answers self.old self.new c result }
        ensures told { number.new ≡ number_out (answer_of_call self.new result) number.old }
    {
        let status = self.take(command);
        if self.is_open {
            self.slot.lend().kept.write_number(status, number);
        }
        status
    }

    /// Answers a question. Writes a number.
    pub(crate) fn read_number(&mut self, question: Reading, number: &mut u32) -> u8
        ensures answers { Asks self.old self.new (Ok (reading_view question)) result }
        ensures told { number.new ≡ number_out (answer_of_call self.new (as_answered result)) number.old }
    {
        let status = self.read(question);
        if self.is_open {
            self.slot
                .lend()
                .kept
                .write_number(as_answered(status), number);
        }
        status
    }

    /// Answers a question. Writes an index or a length.
    pub(crate) fn read_count(&mut self, question: Reading, count: &mut usize) -> u8
        ensures answers { Asks self.old self.new (Ok (reading_view question)) result }
        ensures told { count.new ≡ count_out (answer_of_call self.new (as_answered result)) count.old }
    {
        let status = self.read(question);
        if self.is_open && as_answered(status) == HP_OK {
            let kept = &self.slot.lend().kept;
            match &kept.reply {
                Some(Reply::Brief(Brief::Number(found))) => *count = *found as usize,
                Some(Reply::Done(Answer::Count(found))) => *count = *found,
                _ => {}
            }
        }
        status
    }

    /// Applies a command. Writes true or false: 1 or 0.
    pub(crate) fn take_flag(&mut self, command: Result<Command, ArgumentFault>, flag: &mut u8) -> u8
        ensures answers { (c : Result PlainCommand ℕ) → ReadsArgument command_view command c →
            Answers self.old self.new c result }
        ensures told { flag.new ≡ flag_out (answer_of_call self.new result) flag.old }
    {
        let status = self.take(command);
        if self.is_open {
            self.slot.lend().kept.write_flag(status, flag);
        }
        status
    }

    /// Applies a command. Writes the relative position of two places: -1, 0 or 1.
    pub(crate) fn take_order(
        &mut self,
        command: Result<Command, ArgumentFault>,
        order: &mut i8,
    ) -> u8
        ensures answers { (c : Result PlainCommand ℕ) → ReadsArgument command_view command c →
            Answers self.old self.new c result }
        ensures told { order.new ≡ order_out (answer_of_call self.new result) order.old }
    {
        let status = self.take(command);
        if self.is_open && status == HP_OK {
            let kept = &self.slot.lend().kept;
            if let Some(Reply::Done(Answer::Order(found))) = &kept.reply {
                *order = order_number(*found);
            }
        }
        status
    }
}
