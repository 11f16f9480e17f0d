//! The reader and the writer over those of std.

use dom_serve::{Failed, FromRead, LastError, Sink, Source, ToWrite};
use std::io::{self, Read, Write};

/// A writer that takes no bytes.
#[derive(Drop)]
struct Full;

impl Write for Full {
    fn write(&mut self, _buf: &[u8]) -> io::Result<usize> {
        Ok(0)
    }

    fn flush(&mut self) -> io::Result<()> {
        Ok(())
    }
}

/// A writer that counts its flushes. The first one fails.
#[derive(Drop)]
struct Counting {
    flushes: u8,
}

impl Write for Counting {
    fn write(&mut self, buf: &[u8]) -> io::Result<usize> {
        Ok(buf.len())
    }

    fn flush(&mut self) -> io::Result<()> {
        self.flushes = self.flushes.saturating_add(1);
        if self.flushes == 1 {
            return Err(io::Error::from(io::ErrorKind::Other));
        }
        Ok(())
    }
}

/// A reader that fails once, and then reads.
#[derive(Drop)]
struct FailsOnce {
    calls: u8,
}

impl Read for FailsOnce {
    fn read(&mut self, _buf: &mut [u8]) -> io::Result<usize> {
        if self.calls == 0 {
            self.calls = 1;
            return Err(io::Error::from(io::ErrorKind::Other));
        }
        Ok(0)
    }
}

#[test]
fn a_write_of_no_bytes_is_a_failure(rt: HostRuntime) {
    let mut writer = ToWrite::new(Full);
    assert_eq!(rt; writer.write(b""), Ok(0));
    assert_eq!(rt; writer.write(b"a"), Err(Failed));
    assert_eq!(rt; writer.write(b"a"), Err(Failed));
    assert_eq!(rt; writer.flush(), Ok(()));
}

#[test]
fn a_read_after_one_that_failed_is_made(rt: HostRuntime) {
    let mut reader = FromRead::new(FailsOnce { calls: 0 });
    let mut buffer = [0u8; 2];
    assert_eq!(rt; reader.read(&mut buffer), Err(Failed));
    assert_eq!(rt; reader.read(&mut buffer), Ok(0));
}

// Returns whether the stored error is of a kind.
fn is_kept(error: Option<io::Error>, kind: io::ErrorKind) -> bool {
    match error {
        Some(error) => error.kind() == kind,
        None => false,
    }
}

#[test]
fn the_last_error_is_kept(rt: HostRuntime) {
    let mut writer = ToWrite::new(Full);
    assert!(rt; writer.last_error().is_none());
    assert_eq!(rt; writer.write(b"a"), Err(Failed));
    assert!(rt; is_kept(writer.last_error(), io::ErrorKind::WriteZero));
    let mut reader = FromRead::new(FailsOnce { calls: 0 });
    let mut buffer = [0u8; 2];
    assert!(rt; reader.last_error().is_none());
    assert_eq!(rt; reader.read(&mut buffer), Err(Failed));
    assert!(rt; is_kept(reader.last_error(), io::ErrorKind::Other));
    assert_eq!(rt; reader.read(&mut buffer), Ok(0));
    assert!(rt; is_kept(reader.last_error(), io::ErrorKind::Other));
}

// No clause states that a flush reaches the writer of std.
#[test]
fn each_flush_reaches_the_writer(rt: HostRuntime) {
    let mut writer = ToWrite::new(Counting { flushes: 0 });
    assert_eq!(rt; writer.flush(), Err(Failed));
    assert_eq!(rt; writer.write(b"a"), Ok(1));
    assert_eq!(rt; writer.flush(), Ok(()));
    assert_eq!(rt; writer.into_inner().flushes, 2);
}
