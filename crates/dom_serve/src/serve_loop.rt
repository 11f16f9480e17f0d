//! The serving loop: read, reply to all complete lines, read again.

ghost use Rattle.std.specs.Prelude.{◌≡◌, ℕ, ◌+◌, ◌<◌, ◌≤◌, ◌^◌, true, false, List, [], length, take, IfOk, OnOk, OnErr, IfSome, ◌⊎◌};
ghost use Rattle.std.specs.Io.KnownBytes.{Appends, IsAtEnd, ReadConsumes};
ghost use Rattle.dom_model.specs.Commands.Answer.{Bounds};
ghost use Rattle.dom_model.specs.Commands.Table.{whole_table};
ghost use Rattle.dom_model.specs.Commands.Output.{output_of};
ghost use Rattle.dom_session.specs.Sessions.{bounds_of};
ghost use Rattle.dom_serve.specs.Calls.{IsWritten, HasPassedOn, HasAnswered};
ghost use Rattle.dom_serve.specs.ByLine.{IsWrittenByLine};
ghost use Rattle.dom_serve.specs.Serves.{ServesPieces, Serves};
ghost use Rattle.dom_serve.specs.Output.{is_write_fault};
ghost use Rattle.dom_serve.specs.Server.{IsServerAfter, Concludes};

use crate::fault::{Fault, Summary};
use crate::line_output::write_out_of_memory;
use crate::server::Server;
use crate::streams::{Failed, Sink, Source};
use dom_session::Limits;
use std::alloc::{AllocError, Global};

/// The most bytes of one read.
const READ_SIZE: usize = 65536;

/// The most reads of `serve`.
const MOST_READS: u64 = 1099511627776;

fn read_buffer(alloc: Global) -> Result<Vec<u8>, AllocError>
    ensures { IfOk result (λ buffer. length buffer.items ≡ READ_SIZE) }
{
    vec![in alloc; 0u8; READ_SIZE]
}

/// Replies to the last line, and returns the number of lines.
fn conclude<W: Sink>(server: &mut Server, writer: &mut W) -> Result<Summary, Fault>
    requires room { server.old.lines + 1 < 2 ^ 64 }
    ensures concludes { (b : Bounds) (bytes : List ℕ) → IsServerAfter b bytes server.old →
        Concludes b bytes (W.writing.taken writer.old) (W.writing.taken writer.new) result }
    ensures passed { is_write_fault result ≡ false →
        HasAnswered W.writing writer.old server.old.lines writer.new server.new.lines }
    ensures by_line { IsWrittenByLine W.writing (is_write_fault result) writer.old writer.new }
    ensures writer { IsWritten W.writing (is_write_fault result) writer.old writer.new }
{
    match server.finish(writer) {
        Ok(()) => Ok(Summary {
            lines: server.lines,
        }),
        Err(fault) => Err(fault),
    }
}

/// Makes one read. Requires that no line was replied to yet, or that all written bytes were flushed.
fn read_piece<R: Source, W: Sink>(
    _server: &Server,
    _writer: &W,
    reader: &mut R,
    buffer: &mut [u8],
) -> Result<usize, Failed>
    requires passed { (_server.now.lines ≡ 0) ⊎ (W.writing.is_passed_on _writer.now ≡ true) }
    ensures count { IfOk result (λ n. n ≤ length buffer.new) }
    ensures bytes { ReadConsumes
        (R.reading.left reader.old) (R.reading.left reader.new) result buffer.new }
    ensures gives { IfOk result (λ n. R.reading.gives reader.old (take n buffer.new) reader.new) }
    ensures fails { OnErr result (R.reading.fails reader.old reader.new) }
{
    reader.read(buffer)
}

/// Reads and replies, until the input ends or something fails.
fn serve_all<R: Source, W: Sink>(
    turns: u64,
    server: &mut Server,
    buffer: &mut [u8],
    reader: &mut R,
    writer: &mut W,
) -> Result<Summary, Fault>
    requires bounded { (1 ≤ turns) × (turns ≤ 2 ^ 40) }
    requires lines { server.old.lines ≡ 0 }
    requires size { length buffer.old ≡ READ_SIZE }
    ensures told { (b : Bounds) → IsServerAfter b [] server.old →
        ServesPieces R.reading b turns reader.old reader.new
        (W.writing.taken writer.old) (W.writing.taken writer.new) result }
    ensures at_end { OnOk result (IsAtEnd (R.reading.left reader.new)) }
    ensures passed { is_write_fault result ≡ false → HasPassedOn W.writing writer.old writer.new }
    ensures by_line { IsWrittenByLine W.writing (is_write_fault result) writer.old writer.new }
    ensures writer { IsWritten W.writing (is_write_fault result) writer.old writer.new }
{
    for _turn in 0..turns {
        match read_piece(server, writer, reader, buffer) {
            Ok(0) => return conclude(server, writer),
            Ok(n) => {
                if let Err(fault) = server.feed_all(&buffer[..n], writer) {
                    return Err(fault);
                }
            }
            Err(Failed) => return Err(Fault::Read),
        }
    }
    Err(Fault::InputTooLong)
}

fn start(alloc: Global, limits: Limits) -> Result<(Server, Vec<u8>), AllocError>
    requires numbers { (1 ≤ limits.numbers) × (limits.numbers ≤ 4294967295) }
    requires line { 1 ≤ limits.line }
    ensures stands { IfOk result (λ made. IsServerAfter (bounds_of limits) [] made.0) }
    ensures lines { IfOk result (λ made. made.0.lines ≡ 0) }
    ensures size { IfOk result (λ made. length made.1.items ≡ READ_SIZE) }
{
    let buffer = read_buffer(alloc)?;
    let server = Server::new(alloc, limits)?;
    Ok((server, buffer))
}

/// Replies to each line of the reader, in at most `turns` reads of at most 65,536 bytes.
///
/// - A reply is written and flushed before the next read.
/// - A last piece without a newline is a line, with a reply at the end of the input.
/// - A line with more bytes than the limit is skipped; its reply is written at its newline, or at the end.
/// - If it is out of memory, the last line written is the out-of-memory line.
/// - A failed read, write or flush is not repeated.
pub fn serve_within<R: Source, W: Sink>(
    alloc: Global,
    limits: Limits,
    turns: u64,
    reader: &mut R,
    writer: &mut W,
) -> Result<Summary, Fault>
    requires numbers { (1 ≤ limits.numbers) × (limits.numbers ≤ 4294967295) }
    requires line { 1 ≤ limits.line }
    requires bounded { (1 ≤ turns) × (turns ≤ 2 ^ 40) }

    ensures { Serves R.reading W.writing (bounds_of limits) turns
        reader.old reader.new writer.old writer.new result }
{
    match start(alloc, limits) {
        Ok((mut server, mut buffer)) => {
            serve_all(turns, &mut server, &mut buffer, reader, writer)
        }
        Err(AllocError) => Err(write_out_of_memory(writer)),
    }
}

/// Replies to each line of the reader as `serve_within` does, in at most 2^40 reads.
pub fn serve<R: Source, W: Sink>(
    alloc: Global,
    limits: Limits,
    reader: &mut R,
    writer: &mut W,
) -> Result<Summary, Fault>
    requires numbers { (1 ≤ limits.numbers) × (limits.numbers ≤ 4294967295) }
    requires line { 1 ≤ limits.line }

    // For any sizes of the reads, the written bytes are the output for all bytes of the reader.
    ensures output { OnOk result (IfSome (R.reading.left reader.old) (λ input.
        Appends (W.writing.taken writer.old) (W.writing.taken writer.new)
        (output_of whole_table (bounds_of limits) input))) }
    ensures serves { Serves R.reading W.writing (bounds_of limits) (2 ^ 40)
        reader.old reader.new writer.old writer.new result }
{
    serve_within(alloc, limits, MOST_READS, reader, writer)
}
