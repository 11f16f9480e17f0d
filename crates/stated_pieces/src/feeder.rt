//! A reader that gives its bytes in pieces.

ghost use Rattle.std.specs.Prelude.{◌≡◌, ◌++◌, Some, length, min, take, drop};
ghost use Rattle.std.specs.Io.KnownBytes.{Consumes, Keeps};

use dom_serve::{Failed, Source};

/// A reader that gives its bytes in pieces. One read may fail, and later ones succeed.
#[derive(Drop)]
pub struct Feeder<'a> {
    /// The bytes that are left.
    pub rest: &'a [u8],
    /// No read goes past this many of those bytes; 0 is no limit.
    pub cut: usize,
    /// The most bytes of a read; 0 counts as 1.
    pub most: usize,
    /// How many reads succeed before the one that fails.
    pub reads: u64,
    /// Whether a read has failed.
    pub failed: bool,
    /// How many reads followed it.
    pub later: u64,
}

// Copies as many bytes as both have, and returns how many.
fn copy_front(from: &[u8], to: &mut [u8]) -> usize
    ensures count { result ≡ min (length from.now) (length to.old) }
    ensures copied { to.new ≡ take result from.now ++ drop result to.old }
{
    let count = from.len().min(to.len());
    to[..count].copy_from_slice(&from[..count]);
    count
}

impl Source for Feeder<'_> {
    ghost reading = { record {
      left = λ s. Some s.rest.now;
      gives = λ s bytes t. Consumes (Some s.rest.now) (Some t.rest.now) bytes;
      fails = λ s t. Keeps (Some s.rest.now) (Some t.rest.now);
    } };

    fn read(&mut self, buf: &mut [u8]) -> Result<usize, Failed> {
        if self.failed {
            self.later = self.later.saturating_add(1);
        } else if self.reads == 0 {
            self.failed = true;
            return Err(Failed);
        }
        self.reads = self.reads.saturating_sub(1);
        let most = if self.cut == 0 {
            self.most
        } else {
            self.most.min(self.cut)
        };
        let most = most.max(1).min(self.rest.len());
        let count = copy_front(&self.rest[..most], buf);
        self.rest = &self.rest[count..];
        self.cut = self.cut.saturating_sub(count);
        Ok(count)
    }
}
