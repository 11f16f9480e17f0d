//! The program's statuses.

use crate::{Patient, run};
use dom_serve::{FromRead, ToWrite};
use std::io::{self, ErrorKind, Read, Write};
use std::rt::Clock;
use std::test::Fail;
use std::time::Duration;

const IS_A_DIRECTORY: i32 = 21;

const NO_SPACE: i32 = 28;

const BROKEN_PIPE: i32 = 32;

/// A reader that fails with an error number.
#[derive(Drop)]
struct FailingReader(i32);

impl Read for FailingReader {
    fn read(&mut self, _buf: &mut [u8]) -> io::Result<usize> {
        Err(io::Error::from_raw_os_error(self.0))
    }
}

/// A writer that fails with an error number.
#[derive(Drop)]
struct FailingWriter(i32);

impl Write for FailingWriter {
    fn write(&mut self, _buf: &[u8]) -> io::Result<usize> {
        Err(io::Error::from_raw_os_error(self.0))
    }

    fn flush(&mut self) -> io::Result<()> {
        Ok(())
    }
}

const ALONE: &[&str] = &["domserve"];

const WITH_HELP: &[&str] = &["domserve", "--help"];

const WITH_LIMITS: &[&str] = &["domserve", "--line", "2", "--numbers", "1"];

const UNREADABLE: &[u8] = b"{\"error\":\"bad-json\"}\n{\"error\":\"bad-command\"}\n";

const TOO_LONG: &[u8] = b"{\"error\":\"line-too-long\"}\n{\"error\":\"line-too-long\"}\n";

#[test]
fn serves_the_reader(rt: HostRuntime) {
    for (words, input, wanted) in [
        (ALONE, b"\n[1]\n".as_slice(), UNREADABLE),
        (WITH_LIMITS, b"[ ]\n[1]".as_slice(), TOO_LONG),
    ] {
        let count = words.len();
        let mut reader = FromRead::new(input);
        let mut writer = ToWrite::new(Vec::new(rt.alloc()));
        let mut errors = ToWrite::new(Vec::new(rt.alloc()));
        let status = run(
            rt.alloc(),
            words,
            false,
            &mut reader,
            &mut writer,
            &mut errors,
        );
        assert_eq!(rt; status, 0, "{count} words");
        assert!(rt; errors.into_inner().is_empty(), "{count} words");
        assert!(rt; writer.into_inner().as_slice() == wanted, "{count} words");
    }
}

#[test]
fn gives_help(rt: HostRuntime) -> Result<(), Fail> {
    let mut reader = FromRead::new(&b"\n"[..]);
    let mut writer = ToWrite::new(Vec::new(rt.alloc()));
    let mut errors = ToWrite::new(Vec::new(rt.alloc()));
    let status = run(
        rt.alloc(),
        WITH_HELP,
        false,
        &mut reader,
        &mut writer,
        &mut errors,
    );
    assert_eq!(rt; status, 0);
    assert_eq!(rt; errors.into_inner().is_empty(), true);
    let written = String::from_utf8(writer.into_inner())?;
    assert!(rt; written.as_str().starts_with("Keeps documents"));
    assert!(rt; written.as_str().contains("--line <BYTES>"));
    assert!(rt; written.as_str().contains("--numbers <N>"));
    Ok(())
}

const NO_NUMBER: &str = "error: --line wants a whole number from 1 to 1073741824, not 'x'\n";

// Nothing is read or written. Of most mistakes only some words are due.
#[test]
fn refuses_words(rt: HostRuntime) -> Result<(), Fail> {
    for (option, value, due) in [
        ("--line", "0", ""),
        ("--line", "1073741825", ""),
        ("--numbers", "0", ""),
        ("--numbers", "4294967296", ""),
        ("--lines", "1", ""),
        ("--line", "x", NO_NUMBER),
    ] {
        let mut reader = FromRead::new(FailingReader(IS_A_DIRECTORY));
        let mut writer = ToWrite::new(Vec::new(rt.alloc()));
        let mut errors = ToWrite::new(Vec::new(rt.alloc()));
        let words = ["domserve", option, value];
        let status = run(
            rt.alloc(),
            words.as_slice(),
            false,
            &mut reader,
            &mut writer,
            &mut errors,
        );
        assert_eq!(rt; status, 2, "{option} {value}");
        assert!(rt; writer.into_inner().is_empty(), "{option} {value}");
        let said = String::from_utf8(errors.into_inner())?;
        assert!(rt; !said.as_str().is_empty(), "{option} {value}");
        assert!(rt; said.as_str().starts_with(due), "{option} {value}");
    }
    Ok(())
}

// Only a write notices that nobody reads a pipe.
#[test]
fn a_failed_read_is_a_fault(rt: HostRuntime) {
    for (number, said) in [
        (
            IS_A_DIRECTORY,
            b"domserve: read failed: Is a directory\n".as_slice(),
        ),
        (
            BROKEN_PIPE,
            b"domserve: read failed: Broken pipe\n".as_slice(),
        ),
    ] {
        let mut reader = FromRead::new(FailingReader(number));
        let mut writer = ToWrite::new(Vec::new(rt.alloc()));
        let mut errors = ToWrite::new(Vec::new(rt.alloc()));
        let status = run(
            rt.alloc(),
            ALONE,
            false,
            &mut reader,
            &mut writer,
            &mut errors,
        );
        assert_eq!(rt; status, 3, "{number}");
        assert!(rt; errors.into_inner().as_slice() == said, "{number}");
        assert!(rt; writer.into_inner().is_empty(), "{number}");
    }
}

const NO_SPACE_SAID: &[u8] = b"domserve: write failed: No space left on device\n";

// At a closed pipe the program says nothing.
#[test]
fn a_failed_write_is_a_fault(rt: HostRuntime) {
    for (words, number, due, said) in [
        (ALONE, NO_SPACE, 3, NO_SPACE_SAID),
        (WITH_HELP, NO_SPACE, 3, NO_SPACE_SAID),
        (ALONE, BROKEN_PIPE, 141, b"".as_slice()),
        (WITH_HELP, BROKEN_PIPE, 141, b"".as_slice()),
    ] {
        let count = words.len();
        let mut reader = FromRead::new(&b"\n"[..]);
        let mut writer = ToWrite::new(FailingWriter(number));
        let mut errors = ToWrite::new(Vec::new(rt.alloc()));
        let status = run(
            rt.alloc(),
            words,
            false,
            &mut reader,
            &mut writer,
            &mut errors,
        );
        assert_eq!(rt; status, due, "{count} words, {number}");
        assert!(rt;
            errors.into_inner().as_slice() == said,
            "{count} words, {number}"
        );
    }
}

#[test]
fn errors_that_are_not_written_are_ignored(rt: HostRuntime) {
    let mut reader = FromRead::new(FailingReader(IS_A_DIRECTORY));
    let mut writer = ToWrite::new(Vec::new(rt.alloc()));
    let mut errors = ToWrite::new(FailingWriter(NO_SPACE));
    let status = run(
        rt.alloc(),
        ALONE,
        false,
        &mut reader,
        &mut writer,
        &mut errors,
    );
    assert_eq!(rt; status, 3);
}

#[test]
fn a_hint_at_a_terminal(rt: HostRuntime) -> Result<(), Fail> {
    for (words, lines) in [(ALONE, 1usize), (WITH_HELP, 0)] {
        let count = words.len();
        let mut reader = FromRead::new(&b""[..]);
        let mut writer = ToWrite::new(Vec::new(rt.alloc()));
        let mut errors = ToWrite::new(Vec::new(rt.alloc()));
        let status = run(
            rt.alloc(),
            words,
            true,
            &mut reader,
            &mut writer,
            &mut errors,
        );
        assert_eq!(rt; status, 0, "{count} words");
        let said = String::from_utf8(errors.into_inner())?;
        assert_eq!(rt; said.as_str().lines().count(), lines, "{count} words");
    }
    Ok(())
}

/// A clock that always shows zero, so that sleeping takes no time.
#[derive(Drop)]
struct NoTime;

impl Clock for NoTime {
    fn monotonic(&self) -> io::Result<Duration> {
        Ok(Duration::from_millis(0))
    }

    fn since_1970(&self) -> io::Result<Duration> {
        Ok(Duration::from_millis(0))
    }
}

/// A stream that is not ready for some calls, and then fails or works.
#[derive(Drop)]
struct NotReady {
    calls: u8,
    fails: bool,
}

impl NotReady {
    fn wait(&mut self) -> io::Result<()> {
        if self.calls > 0 {
            self.calls -= 1;
            return Err(io::Error::from(ErrorKind::WouldBlock));
        }
        if self.fails {
            return Err(io::Error::from_raw_os_error(NO_SPACE));
        }
        Ok(())
    }
}

impl Read for NotReady {
    fn read(&mut self, _buf: &mut [u8]) -> io::Result<usize> {
        self.wait()?;
        Ok(0)
    }
}

impl Write for NotReady {
    fn write(&mut self, _buf: &[u8]) -> io::Result<usize> {
        self.wait()?;
        Ok(0)
    }

    fn flush(&mut self) -> io::Result<()> {
        Ok(())
    }
}

#[test]
fn calls_are_made_again_until_a_stream_is_ready(rt: HostRuntime) {
    let mut buffer = [0u8; 1];
    for fails in [false, true] {
        let mut stream = Patient::new(NoTime, NotReady { calls: 40, fails });
        assert_eq!(rt; stream.read(&mut buffer).is_err(), fails);
        let mut stream = Patient::new(NoTime, NotReady { calls: 40, fails });
        assert_eq!(rt; stream.write(b"a").is_err(), fails);
    }
}
