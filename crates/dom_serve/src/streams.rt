//! The server's input and output.

ghost use Rattle.std.specs.Prelude.{◌≡◌, ◌<◌, ◌≤◌, true, length, take, IfOk, OnOk, OnErr};
ghost use Rattle.std.specs.Io.KnownBytes.{ReadConsumes, WriteAppends, Keeps};
ghost use Rattle.dom_serve.specs.Streams.{Reading, Writing};

/// A read, a write or a flush failed.
#[derive(Clone, Copy, Debug, PartialEq, Eq)]
pub struct Failed;

/// A reader. A failed one may read again later.
pub trait Source {
    // its words in clauses: the remaining bytes, and the bytes and the states after a read
    ghost reading: { Reading Self };

    /// Reads some bytes into the front of the slice, and returns how many: none only at the end, or if the slice is empty.
    fn read(&mut self, buf: &mut [u8]) -> Result<usize, Failed>
        ensures count { IfOk result (λ n. n ≤ length buf.new) }
        ensures bytes { ReadConsumes
            (reading.left self.old) (reading.left self.new) result buf.new }
        ensures gives { IfOk result (λ n. reading.gives self.old (take n buf.new) self.new) }
        ensures fails { OnErr result (reading.fails self.old self.new) };
}

/// A writer. A failed one may write again later.
pub trait Sink {
    // its words in clauses: the bytes that it took, whether all of them were flushed, and the states after a write or a flush
    ghost writing: { Writing Self };

    /// Writes bytes from the front of the slice, and returns how many: none only if the slice is empty.
    fn write(&mut self, buf: &[u8]) -> Result<usize, Failed>
        ensures count { IfOk result (λ n. n ≤ length buf.now) }
        ensures some { IfOk result (λ n. 0 < length buf.now → 0 < n) }
        ensures bytes { WriteAppends
            (writing.taken self.old) (writing.taken self.new) result buf.now }
        ensures works { OnOk result (writing.works self.old self.new) }
        ensures fails { OnErr result (writing.fails self.old self.new) };

    /// Flushes the written bytes.
    fn flush(&mut self) -> Result<(), Failed>
        ensures bytes { Keeps (writing.taken self.old) (writing.taken self.new) }
        ensures passed { OnOk result (writing.is_passed_on self.new ≡ true) }
        ensures works { OnOk result (writing.works self.old self.new) }
        ensures fails { OnErr result (writing.fails self.old self.new) };
}
