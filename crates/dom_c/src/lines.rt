//! Lines of JSON, and the lines of their replies.

ghost use Rattle.std.specs.Prelude.{◌≡◌, true, Err, IfOk};
ghost use Rattle.dom_model.specs.Commands.Reply.{is_refusal};
ghost use Rattle.dom_model.specs.Commands.Table.{whole_table};
ghost use Rattle.dom_model.specs.Commands.Line.{command_within};
ghost use Rattle.dom_session.specs.Sessions.{IsAsBefore, reply_view};
ghost use Rattle.dom_wire.specs.Reads.{ReadsCommand};
ghost use Rattle.dom_c.specs.Lines.{AnswersLine, TakesLine, IsPrinted, IsReply, PrintsLast, PrintsLastIn, step_in};

use crate::handle::Handle;
use crate::handle_state::HandleState;
use crate::status::{HP_CLOSED, HP_NOT_THERE, HP_OK, HP_OUT_OF_MEMORY, status_of};
use dom_session::{Brief, Command, OutOfMemory, OwnError, Reply, Session};
use dom_wire::{ReadError, read_line, write_reply};
use std::alloc::Global;

// Returns the command of a line within a limit, or the refusal of its form.
#[tactic(auto, unfolding(dom_model::specs::Commands::Line::command_within))]
fn read_within(alloc: Global, limit: usize, line: &[u8]) -> Result<Command, ReadError>
    ensures { ReadsCommand result (command_within whole_table limit line.now) }
{
    if line.len() > limit {
        return Err(ReadError::Own(OwnError::LineTooLong));
    }
    read_line(alloc, line)
}

// Applies a line's command, and returns the reply.
fn reply_to(
    alloc: Global,
    session: &mut Session,
    limit: usize,
    line: &[u8],
) -> Result<Reply, OutOfMemory>
    ensures reply { IfOk result (λ reply. IsReply (reply_view reply) session.old session.new
        (step_in session.old limit line.now)) }
    ensures refused { IfOk result (λ reply. is_refusal (reply_view reply) ≡ true →
        session.new ≡ session.old) }
    ensures same { result ≡ Err OutOfMemory.Refused → IsAsBefore session.old session.new }
    ensures bounds { session.new.bounds ≡ session.old.bounds }
{
    match read_within(alloc, limit, line) {
        Ok(command) => session.apply(command),
        Err(ReadError::Own(error)) => Ok(Reply::Brief(Brief::Own(error))),
        Err(ReadError::Memory) => Err(OutOfMemory::Refused),
    }
}

impl HandleState {
    // Answers a line, and stores its reply and the reply's line. A session whose reply cannot be printed ends.
    fn answer_line(&mut self, line: &[u8]) -> u8
        ensures steps { TakesLine line.now self.old self.new result }
        ensures printed { IsPrinted result self.new }
    {
        if self.ended {
            return HP_OUT_OF_MEMORY;
        }
        match reply_to(self.alloc, &mut self.session, self.limit, line) {
            Ok(reply) => {
                if let Ok(text) = write_reply(self.alloc, &reply) {
                    let status = status_of(&reply);
                    self.reply = Some(reply);
                    self.line = text;
                    return status;
                }
            }
            Err(OutOfMemory::Refused) => return HP_OUT_OF_MEMORY,
            Err(OutOfMemory::Ended) => {}
        }
        self.ended = true;
        HP_OUT_OF_MEMORY
    }

    // Prints the last reply.
    fn print(&mut self) -> u8
        ensures { PrintsLast self.old self.new result }
    {
        if self.ended {
            return HP_OUT_OF_MEMORY;
        }
        let Some(reply) = &self.reply else {
            return HP_NOT_THERE;
        };
        match write_reply(self.alloc, reply) {
            Ok(printed) => {
                self.line = printed;
                HP_OK
            }
            Err(_) => HP_OUT_OF_MEMORY,
        }
    }
}

/// Answers a line of JSON, which has no newline, as the server does. `hp_reply_line` lends the line of the reply.
#[unsafe(no_mangle)]
pub extern "C" fn hp_line(handle: &mut Handle, line: &[u8]) -> u8
    ensures { AnswersLine handle.old handle.new line.now result }
{
    if !handle.is_open {
        return HP_CLOSED;
    }
    handle.slot.lend().kept.answer_line(line)
}

/// Prints the last answer, as the server prints it in its reply: the rows of a tree, records and what `hp_notify` told are read
/// so. `hp_reply_line` lends the line. Before the first answer it says `HP_NOT_THERE`.
#[unsafe(no_mangle)]
pub extern "C" fn hp_print(handle: &mut Handle) -> u8
    ensures { PrintsLastIn handle.old handle.new result }
{
    if !handle.is_open {
        return HP_CLOSED;
    }
    handle.slot.lend().kept.print()
}
