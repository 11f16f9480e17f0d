//! Streams that may not be ready.

ghost use Rattle.std.specs.Prelude.{◌≤◌};

use std::io::{ErrorKind, Read, Result, Write};
use std::rt::Clock;
use std::thread;
use std::time::Duration;

/// A reader or writer of std that may be non-blocking. If it is not ready for a call, it sleeps and repeats the call.
#[derive(Drop)]
pub struct Patient<C, S> {
    clock: C,
    inner: S,
}

impl<C: Clock, S> Patient<C, S> {
    pub fn new(clock: C, inner: S) -> Patient<C, S> {
        Patient { clock, inner }
    }

    /// Sleeps before the next call: 1 ms for the first 16 calls for which the stream was not ready, then 16 ms.
    fn pause(&self, calls: u64) {
        let millis = if calls < 16 { 1 } else { 16 };
        thread::sleep(&self.clock, Duration::from_millis(millis));
    }
}

impl<C: Clock, R: Read> Read for Patient<C, R> {
    ghost remaining = { λ s. R.remaining s.inner };

    fn read(&mut self, buf: &mut [u8]) -> Result<usize> {
        for calls in 0..u64::MAX {
            match self.inner.read(buf) {
                Err(error) if error.kind() == ErrorKind::WouldBlock => self.pause(calls),
                other => return other,
            }
        }
        self.inner.read(buf)
    }
}

impl<C: Clock, W: Write> Write for Patient<C, W> {
    ghost contents = { λ s. W.contents s.inner };

    fn write(&mut self, buf: &[u8]) -> Result<usize> {
        for calls in 0..u64::MAX {
            match self.inner.write(buf) {
                Err(error) if error.kind() == ErrorKind::WouldBlock => self.pause(calls),
                other => return other,
            }
        }
        self.inner.write(buf)
    }

    fn flush(&mut self) -> Result<()> {
        self.inner.flush()
    }
}
