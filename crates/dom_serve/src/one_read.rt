//! One read of a reader of std.

ghost use Rattle.std.specs.Prelude.{ℕ, ◌≤◌, List, length, take, Option, IfOk, OnErr};
ghost use Rattle.std.specs.Io.KnownBytes.{ReadConsumes, Consumes, Keeps};

use std::io::{Read, Result};

/// A reader with its own contract for one read. Each reader of std has one.
///
/// For a reader whose remaining bytes are unknown, such as a terminal, std states nothing about a read. The contracts that use this trait state it
/// for each read all the same: they pass on the bytes that the read returned, whichever reader it is.
pub trait OneRead {
    // the bytes of all later reads, if they are known
    ghost left: { Self → Option (List ℕ) };
    // a successful read may return these bytes and leave the reader in this state
    ghost gives: { Self → List ℕ → Self → Type 0 };
    // a failed read may leave the reader in this state
    ghost fails: { Self → Self → Type 0 };

    /// Makes one read into the front of the slice, and returns how many bytes it read.
    fn read_once(&mut self, buf: &mut [u8]) -> Result<usize>
        ensures count { IfOk result (λ n. n ≤ length buf.new) }
        ensures bytes { ReadConsumes (left self.old) (left self.new) result buf.new }
        ensures gives { IfOk result (λ n. gives self.old (take n buf.new) self.new) }
        ensures fails { OnErr result (fails self.old self.new) };
}

impl<R: Read> OneRead for R {
    ghost left = { λ s. R.remaining s };

    ghost gives = { λ s bytes t. Consumes (R.remaining s) (R.remaining t) bytes };

    ghost fails = { λ s t. Keeps (R.remaining s) (R.remaining t) };

    fn read_once(&mut self, buf: &mut [u8]) -> Result<usize> {
        self.read(buf)
    }
}
