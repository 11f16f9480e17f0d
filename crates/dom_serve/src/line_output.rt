//! Writing and flushing a whole line.

ghost use Rattle.std.specs.Prelude.{◌≡◌, true, false, OnOk, is_err};
ghost use Rattle.dom_model.specs.Commands.Printed.{out_of_memory_line};
ghost use Rattle.dom_serve.specs.Calls.{IsWritten};
ghost use Rattle.dom_serve.specs.ByLine.{IsLine, IsWrittenByLine};
ghost use Rattle.dom_serve.specs.Writes.{Writes};
ghost use Rattle.dom_serve.specs.Output.{is_write};
ghost use Rattle.dom_serve.specs.Server.{SaysWant};

use crate::fault::Fault;
use crate::streams::{Failed, Sink};

/// The line that is written in place of a reply if the server is out of memory.
const OUT_OF_MEMORY: &[u8] = b"{\"error\":\"out-of-memory\"}\n";

/// Writes all bytes, by as many writes as needed.
fn write_whole<W: Sink>(writer: &mut W, bytes: &[u8]) -> Result<(), Failed>
    ensures written { Writes
        (W.writing.taken writer.old) (W.writing.taken writer.new) bytes.now result }
    ensures writer { IsWritten W.writing (is_err result) writer.old writer.new }
{
    let mut at = 0;
    while at < bytes.len() {
        match writer.write(&bytes[at..]) {
            Ok(n) => at += n,
            Err(Failed) => return Err(Failed),
        }
    }
    Ok(())
}

/// Writes all bytes, by as many writes as needed, and flushes. If a call fails, the first of the bytes were written, and the writer is not called
/// again.
pub fn write_line<W: Sink>(writer: &mut W, bytes: &[u8]) -> Result<(), Failed>
    ensures written { Writes
        (W.writing.taken writer.old) (W.writing.taken writer.new) bytes.now result }
    ensures passed { OnOk result (W.writing.is_passed_on writer.new ≡ true) }
    ensures writer { IsWritten W.writing (is_err result) writer.old writer.new }
{
    match write_whole(writer, bytes) {
        Ok(()) => writer.flush(),
        Err(Failed) => Err(Failed),
    }
}

fn out_of_memory_text() -> &'static [u8]
    ensures text { result.now ≡ out_of_memory_line }
    ensures line { IsLine result.now }
{
    OUT_OF_MEMORY
}

/// Writes the out-of-memory line, and returns the fault.
pub(crate) fn write_out_of_memory<W: Sink>(writer: &mut W) -> Fault
    ensures written { SaysWant (W.writing.taken writer.old) (W.writing.taken writer.new) result }
    ensures passed { is_write result ≡ false → W.writing.is_passed_on writer.new ≡ true }
    ensures by_line { IsWrittenByLine W.writing (is_write result) writer.old writer.new }
    ensures writer { IsWritten W.writing (is_write result) writer.old writer.new }
{
    match write_line(writer, out_of_memory_text()) {
        Ok(()) => Fault::Memory,
        Err(Failed) => Fault::Write,
    }
}
