//! The reply to a buffered line, or to a line that is too long.

ghost use Rattle.std.specs.Prelude.{◌≡◌, true, false, IfOk};
ghost use Rattle.dom_model.specs.Worlds.World.{World};
ghost use Rattle.dom_session.specs.Sessions.{StandsFor};
ghost use Rattle.dom_session.specs.Sessions.{reply_view};
ghost use Rattle.dom_wire.specs.Reads.{ReadsCommand};
ghost use Rattle.dom_serve.specs.Calls.{IsWritten};
ghost use Rattle.dom_serve.specs.ByLine.{IsLine, IsWrittenByLine};
ghost use Rattle.dom_serve.specs.Output.{is_write_fault};
ghost use Rattle.dom_serve.specs.Server.{held_command, held_step, Takes, PrintsStep, WritesReply};

use crate::fault::Fault;
use crate::line_output::{write_line, write_out_of_memory};
use crate::streams::{Failed, Sink};
use dom_session::{Brief, Command, OwnError, Reply, Session};
use dom_wire::{ReadError, read_line, write_reply};
use std::alloc::{AllocError, Global};

/// Returns the command of a line, or the refusal of its form.
fn command(alloc: Global, kept: &[u8], too_long: bool) -> Result<Command, ReadError>
    ensures { ReadsCommand result (held_command kept.now too_long) }
{
    if too_long {
        return Err(ReadError::Own(OwnError::LineTooLong));
    }
    read_line(alloc, kept)
}

/// Returns the reply to a line, after the session has run its command.
fn reply(
    alloc: Global,
    session: &mut Session,
    kept: &[u8],
    too_long: bool,
) -> Result<Reply, AllocError>
    ensures takes { IfOk result (λ reply. (w : World) → StandsFor session.old w →
        Takes (held_step session.old.bounds kept.now too_long w) (reply_view reply) session.new) }
    ensures bounds { session.new.bounds ≡ session.old.bounds }
{
    match command(alloc, kept, too_long) {
        Ok(command) => match session.apply(command) {
            Ok(reply) => Ok(reply),
            Err(_) => Err(AllocError),
        },
        Err(ReadError::Own(error)) => Ok(Reply::Brief(Brief::Own(error))),
        Err(ReadError::Memory) => Err(AllocError),
    }
}

/// Returns the reply to a line as text, with its newline.
fn reply_text(
    alloc: Global,
    session: &mut Session,
    kept: &[u8],
    too_long: bool,
) -> Result<Vec<u8>, AllocError>
    ensures line { IfOk result (λ text. IsLine text.items) }
    ensures prints { IfOk result (λ text. (w : World) → StandsFor session.old w →
        PrintsStep (held_step session.old.bounds kept.now too_long w) text.items session.new) }
    ensures bounds { session.new.bounds ≡ session.old.bounds }
{
    match reply(alloc, session, kept, too_long) {
        Ok(reply) => write_reply(alloc, &reply),
        Err(AllocError) => Err(AllocError),
    }
}

/// Writes the reply to a line and flushes it. If it is out of memory, it writes the out-of-memory line.
pub(crate) fn answer<W: Sink>(
    alloc: Global,
    session: &mut Session,
    kept: &[u8],
    too_long: bool,
    writer: &mut W,
) -> Result<(), Fault>
    ensures answers { (w : World) → StandsFor session.old w →
        WritesReply (held_step session.old.bounds kept.now too_long w) session.new
        (W.writing.taken writer.old) (W.writing.taken writer.new) result }
    ensures bounds { session.new.bounds ≡ session.old.bounds }
    ensures passed { is_write_fault result ≡ false → W.writing.is_passed_on writer.new ≡ true }
    ensures by_line { IsWrittenByLine W.writing (is_write_fault result) writer.old writer.new }
    ensures writer { IsWritten W.writing (is_write_fault result) writer.old writer.new }
{
    match reply_text(alloc, session, kept, too_long) {
        Ok(text) => match write_line(writer, &text) {
            Ok(()) => Ok(()),
            Err(Failed) => Err(Fault::Write),
        },
        Err(AllocError) => Err(write_out_of_memory(writer)),
    }
}
