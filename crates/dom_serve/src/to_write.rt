//! A `Sink` over a writer of std.

ghost use Rattle.std.specs.Prelude.{◌≡◌, ℕ, List, true, IsSome, None};
ghost use Rattle.std.specs.Io.KnownBytes.{Appends, Keeps};

use crate::last_error::LastError;
use crate::streams::{Failed, Sink};
use std::io::{Error, ErrorKind, Write};

/// A writer of std as a `Sink`. Each write or flush is one of the inner writer, even after one failed. A write that takes no byte of a slice that is
/// not empty fails. It stores the last error.
#[derive(Drop)]
pub struct ToWrite<W> {
    inner: W,
    // whether it was flushed after the last write
    flushed: bool,
    error: Option<Error>,
}

impl<W: Write> ToWrite<W> {
    pub fn new(inner: W) -> ToWrite<W>
        ensures taken { ⟦<ToWrite<W> as Sink>⟧.writing.taken result ≡ W.contents inner }
        ensures passed { ⟦<ToWrite<W> as Sink>⟧.writing.is_passed_on result ≡ true }
        ensures error { ⟦<ToWrite<W> as LastError>⟧.error result ≡ None }
    {
        ToWrite {
            inner,
            flushed: true,
            error: None,
        }
    }

    /// Returns the inner writer.
    pub fn into_inner(self) -> W
        ensures { W.contents result ≡ ⟦<ToWrite<W> as Sink>⟧.writing.taken self }
    {
        let ToWrite {
            inner,
            flushed: _,
            error: _,
        } = self;
        inner
    }

    fn failed(&mut self, error: Error) -> Failed
        ensures { self.new ≡ record self.old { error = Some error } }
    {
        self.error = Some(error);
        Failed
    }
}

impl<W: Write> Sink for ToWrite<W> {
    ghost writing = { record {
      taken = λ s. W.contents s.inner;
      is_passed_on = λ s. s.flushed;
      works = λ s t. (bytes : List ℕ) × Appends (W.contents s.inner) (W.contents t.inner) bytes;
      fails = λ s t. Keeps (W.contents s.inner) (W.contents t.inner) × IsSome t.error;
    } };

    fn write(&mut self, buf: &[u8]) -> Result<usize, Failed> {
        self.flushed = false;
        match self.inner.write(buf) {
            Ok(n) if 0 < n || buf.is_empty() => Ok(n),
            Ok(_) => Err(self.failed(Error::from(ErrorKind::WriteZero))),
            Err(error) => Err(self.failed(error)),
        }
    }

    fn flush(&mut self) -> Result<(), Failed> {
        match self.inner.flush() {
            Ok(()) => {
                self.flushed = true;
                Ok(())
            }
            Err(error) => Err(self.failed(error)),
        }
    }
}

impl<W> LastError for ToWrite<W> {
    ghost error = { λ s. s.error };

    fn last_error(&self) -> Option<Error> {
        self.error
    }
}
