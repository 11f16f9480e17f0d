//! A `Source` over a reader of std.

ghost use Rattle.std.specs.Prelude.{◌≡◌, IsSome, None};

use crate::last_error::LastError;
use crate::one_read::OneRead;
use crate::streams::{Failed, Source};
use std::io::{Error, Read};

/// A reader of std as a `Source`. Each read is one read of the inner reader, even after one failed. It stores the last error.
#[derive(Drop)]
pub struct FromRead<R> {
    inner: R,
    error: Option<Error>,
}

impl<R: Read> FromRead<R> {
    pub fn new(inner: R) -> FromRead<R>
        ensures left { ⟦<FromRead<R> as Source>⟧.reading.left result ≡ R.remaining inner }
        ensures error { ⟦<FromRead<R> as LastError>⟧.error result ≡ None }
    {
        FromRead { inner, error: None }
    }
}

impl<R: OneRead> Source for FromRead<R> {
    ghost reading = { record {
      left = λ s. R.left s.inner;
      gives = λ s bytes t. R.gives s.inner bytes t.inner;
      fails = λ s t. R.fails s.inner t.inner × IsSome t.error;
    } };

    fn read(&mut self, buf: &mut [u8]) -> Result<usize, Failed> {
        match self.inner.read_once(buf) {
            Ok(n) => Ok(n),
            Err(error) => {
                self.error = Some(error);
                Err(Failed)
            }
        }
    }
}

impl<R> LastError for FromRead<R> {
    ghost error = { λ s. s.error };

    fn last_error(&self) -> Option<Error> {
        self.error
    }
}
