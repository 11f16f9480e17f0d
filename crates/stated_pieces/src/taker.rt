//! A writer that takes its bytes in pieces.

ghost use Rattle.std.specs.Prelude.{◌≡◌, ℕ, List, Some};
ghost use Rattle.std.specs.Io.KnownBytes.{Appends, Keeps};

use dom_serve::{Failed, Sink};

/// A writer that takes its bytes in pieces. One write and one flush may fail, and later ones succeed.
#[derive(Drop)]
pub struct Taker {
    /// The bytes that it took.
    pub taken: Vec<u8>,
    /// Whether it was flushed after the last write.
    pub flushed: bool,
    /// The most bytes of a write; 0 counts as 1.
    pub most: usize,
    /// How many writes succeed before the one that fails.
    pub writes: u64,
    /// How many flushes succeed before the one that fails.
    pub flushes: u64,
    /// Whether a write or a flush has failed.
    pub failed: bool,
    /// How many writes and flushes followed it.
    pub later: u64,
}

impl Taker {
    // Counts a call after a failed one. Returns whether this call is the first to fail, if `ahead` calls succeed before that.
    fn fails_at(&mut self, ahead: u64) -> bool
        ensures taken { self.new.taken ≡ self.old.taken }
    {
        if self.failed {
            self.later = self.later.saturating_add(1);
            return false;
        }
        self.failed = ahead == 0;
        self.failed
    }
}

impl Sink for Taker {
    ghost writing = { record {
      taken = λ s. Some s.taken.items;
      is_passed_on = λ s. s.flushed;
      works = λ s t. (bytes : List ℕ) × Appends (Some s.taken.items) (Some t.taken.items) bytes;
      fails = λ s t. Keeps (Some s.taken.items) (Some t.taken.items);
    } };

    fn write(&mut self, buf: &[u8]) -> Result<usize, Failed> {
        self.flushed = false;
        if self.fails_at(self.writes) {
            return Err(Failed);
        }
        self.writes = self.writes.saturating_sub(1);
        let count = self.most.max(1).min(buf.len());
        match self.taken.extend_from_slice(&buf[..count]) {
            Ok(()) => Ok(count),
            Err(_) => {
                self.failed = true;
                Err(Failed)
            }
        }
    }

    fn flush(&mut self) -> Result<(), Failed> {
        if self.fails_at(self.flushes) {
            return Err(Failed);
        }
        self.flushes = self.flushes.saturating_sub(1);
        self.flushed = true;
        Ok(())
    }
}
