//! Feeding bytes to a server, which replies to each line at its newline.

ghost use Rattle.std.specs.Prelude.{◌≡◌, ℕ, ◌+◌, ◌<◌, ◌≤◌, ◌^◌, true, false, List, ◌++◌, ◌∷◌, [], length, IfOk, MatchOption};
ghost use Rattle.dom_model.specs.Commands.Answer.{Bounds};
ghost use Rattle.dom_session.specs.Sessions.{bounds_of};
ghost use Rattle.dom_serve.specs.Calls.{HasAnswered, IsWritten};
ghost use Rattle.dom_serve.specs.ByLine.{IsWrittenByLine};
ghost use Rattle.dom_serve.specs.Output.{is_write_fault};
ghost use Rattle.dom_serve.specs.Server.{EndsNoLine, IsServerAfter, Fed, Finishes};

use crate::fault::Fault;
use crate::line_output::write_out_of_memory;
use crate::replies::answer;
use crate::server::Server;
use crate::streams::Sink;
use dom_session::{Limits, Session};
use memchr::memchr;
use std::alloc::{AllocError, Global};

/// Returns the bytes before the first newline, and the bytes after it.
fn split_line(bytes: &[u8]) -> Option<(&[u8], &[u8])>
    ensures { MatchOption result (EndsNoLine bytes.now)
        (λ parts. EndsNoLine parts.0.now × (bytes.now ≡ parts.0.now ++ 10 ∷ parts.1.now)) }
{
    let end = memchr(b'\n', bytes)?;
    Some((&bytes[..end], &bytes[end + 1..]))
}

impl Server {
    /// Returns a server that has received no bytes.
    pub fn new(alloc: Global, limits: Limits) -> Result<Server, AllocError>
        requires numbers { (1 ≤ limits.numbers) × (limits.numbers ≤ 4294967295) }
        requires line { 1 ≤ limits.line }
        ensures stands { IfOk result (λ server. IsServerAfter (bounds_of limits) [] server) }
        ensures lines { IfOk result (λ server. server.lines ≡ 0) }
    {
        let session = Session::new(alloc, limits)?;
        let kept = Vec::new(alloc);
        Ok(Server {
            alloc,
            session,
            line: limits.line,
            kept,
            too_long: false,
            lines: 0,
        })
    }

    /// Replies to the buffered line, and clears the buffer.
    fn end_line<W: Sink>(&mut self, writer: &mut W) -> Result<(), Fault>
        requires room { self.old.lines + 1 < 2 ^ 64 }
        ensures fed { (b : Bounds) (bytes : List ℕ) → IsServerAfter b bytes self.old →
            Fed b bytes (bytes ++ 10 ∷ []) self.new
            (W.writing.taken writer.old) (W.writing.taken writer.new) result }
        ensures lines { self.new.lines ≤ self.old.lines + 1 }
        ensures passed { is_write_fault result ≡ false → W.writing.is_passed_on writer.new ≡ true }
        ensures by_line { IsWrittenByLine W.writing (is_write_fault result) writer.old writer.new }
        ensures writer { IsWritten W.writing (is_write_fault result) writer.old writer.new }
    {
        if let Err(fault) = answer(
            self.alloc,
            &mut self.session,
            &self.kept,
            self.too_long,
            writer,
        ) {
            return Err(fault);
        }
        self.kept.clear();
        self.too_long = false;
        self.lines += 1;
        Ok(())
    }

    /// Buffers bytes without a newline. A line over the limit has no buffered bytes.
    fn keep<W: Sink>(&mut self, part: &[u8], writer: &mut W) -> Result<(), Fault>
        requires part { EndsNoLine part.now }
        ensures fed { (b : Bounds) (bytes : List ℕ) → IsServerAfter b bytes self.old →
            Fed b bytes (bytes ++ part.now) self.new
            (W.writing.taken writer.old) (W.writing.taken writer.new) result }
        ensures lines { self.new.lines ≡ self.old.lines }
        ensures passed { is_write_fault result ≡ false →
            HasAnswered W.writing writer.old self.old.lines writer.new self.new.lines }
        ensures by_line { IsWrittenByLine W.writing (is_write_fault result) writer.old writer.new }
        ensures writer { IsWritten W.writing (is_write_fault result) writer.old writer.new }
    {
        if self.too_long {
            return Ok(());
        }
        if self.kept.len() + part.len() > self.line {
            self.kept.clear();
            self.too_long = true;
            return Ok(());
        }
        match self.kept.extend_from_slice(part) {
            Ok(()) => Ok(()),
            Err(AllocError) => Err(write_out_of_memory(writer)),
        }
    }

    /// Buffers the rest of a line, and replies to the line.
    fn feed_line<W: Sink>(&mut self, rest: &[u8], writer: &mut W) -> Result<(), Fault>
        requires room { self.old.lines + 1 < 2 ^ 64 }
        requires rest { EndsNoLine rest.now }
        ensures fed { (b : Bounds) (bytes : List ℕ) → IsServerAfter b bytes self.old →
            Fed b bytes (bytes ++ rest.now ++ 10 ∷ []) self.new
            (W.writing.taken writer.old) (W.writing.taken writer.new) result }
        ensures lines { self.new.lines ≤ self.old.lines + 1 }
        ensures passed { is_write_fault result ≡ false →
            HasAnswered W.writing writer.old self.old.lines writer.new self.new.lines }
        ensures by_line { IsWrittenByLine W.writing (is_write_fault result) writer.old writer.new }
        ensures writer { IsWritten W.writing (is_write_fault result) writer.old writer.new }
    {
        self.keep(rest, writer)?;
        self.end_line(writer)
    }

    /// Buffers bytes, and replies to each line at its newline.
    pub fn feed_all<W: Sink>(&mut self, piece: &[u8], writer: &mut W) -> Result<(), Fault>
        requires room { self.old.lines + length piece.now < 2 ^ 64 }
        ensures fed { (b : Bounds) (bytes : List ℕ) → IsServerAfter b bytes self.old →
            Fed b bytes (bytes ++ piece.now) self.new
            (W.writing.taken writer.old) (W.writing.taken writer.new) result }
        ensures lines { self.new.lines ≤ self.old.lines + length piece.now }
        ensures passed { is_write_fault result ≡ false →
            HasAnswered W.writing writer.old self.old.lines writer.new self.new.lines }
        ensures by_line { IsWrittenByLine W.writing (is_write_fault result) writer.old writer.new }
        ensures writer { IsWritten W.writing (is_write_fault result) writer.old writer.new }
    {
        let mut rest = piece;
        while let Some((line, after)) = split_line(rest) {
            self.feed_line(line, writer)?;
            rest = after;
        }
        self.keep(rest, writer)
    }

    /// Replies to the last line, if the input did not end with a newline.
    pub fn finish<W: Sink>(&mut self, writer: &mut W) -> Result<(), Fault>
        requires room { self.old.lines + 1 < 2 ^ 64 }
        ensures finishes { (b : Bounds) (bytes : List ℕ) → IsServerAfter b bytes self.old →
            Finishes b bytes self.new
            (W.writing.taken writer.old) (W.writing.taken writer.new) result }
        ensures passed { is_write_fault result ≡ false →
            HasAnswered W.writing writer.old self.old.lines writer.new self.new.lines }
        ensures by_line { IsWrittenByLine W.writing (is_write_fault result) writer.old writer.new }
        ensures writer { IsWritten W.writing (is_write_fault result) writer.old writer.new }
    {
        if self.too_long {
            return self.end_line(writer);
        }
        if self.kept.is_empty() {
            return Ok(());
        }
        self.end_line(writer)
    }
}
