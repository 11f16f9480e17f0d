//! Failing reads, writes and flushes, how often is flushed, and inputs that do not end within the number of reads.

use crate::memory::limits_of;
use dialogues::Dialogue;
use dom_serve::{Fault, Summary, ToWrite, serve, serve_within};
use stated_pieces::{Taker, USUAL, all_taken, first_lines, in_pieces, newlines, serve_all};
use std::alloc::Global;
use std::process::Abort;

const TWO_LINES: &[u8] = b"[\"tree\",0]\n[\"tree\",0]\n";

// Asserts that a failed read after `reads` others is reported, and that the replies to all lines read until then were written. Returns whether that
// read was made.
fn fails_at_read(
    rt: &impl Abort,
    alloc: Global,
    dialogue: &Dialogue,
    most: usize,
    reads: usize,
) -> bool {
    let name = dialogue.name;
    let input = dialogue.input();
    let limits = limits_of(dialogue);
    assert!(rt; 1 <= limits.numbers && limits.numbers <= 4294967295 && 1 <= limits.line);
    let mut reader = in_pieces(input, most);
    reader.reads = reads as u64;
    let served = serve_all(alloc, limits, reader);
    assert!(rt; served.is_clean, "{name} {most} {reads}");
    if reads > 0 && (reads - 1).saturating_mul(most) >= input.len() {
        assert!(rt; served.ended.is_ok(), "{name} {most} {reads}");
        assert!(rt;
            served.written.as_slice() == dialogue.output(),
            "{name} {most} {reads}"
        );
        return false;
    }
    assert!(rt; served.ended == Err(Fault::Read), "{name} {most} {reads}");
    let given = input.get(..reads.saturating_mul(most)).unwrap_or(input);
    let due = first_lines(dialogue.output(), newlines(given));
    assert!(rt; served.written.as_slice() == due, "{name} {most} {reads}");
    true
}

// Asserts the outcome if each read in turn fails.
fn fails_at_each_read(rt: &impl Abort, alloc: Global, dialogue: &Dialogue, most: usize) {
    for reads in 0..=dialogue.input().len().saturating_add(1) {
        if !fails_at_read(rt, alloc, dialogue, most, reads) {
            break;
        }
    }
}

// Returns the part of a text that `writes` writes take. Each takes at most `most` bytes of one line.
fn first_writes(text: &[u8], most: usize, writes: usize) -> &[u8] {
    let mut left = writes;
    let mut room: usize = 0;
    for (at, byte) in text.iter().enumerate() {
        if room == 0 {
            if left == 0 {
                return text.get(..at).unwrap_or(text);
            }
            left -= 1;
            room = most;
        }
        room = room.saturating_sub(1);
        if *byte == b'\n' {
            room = 0;
        }
    }
    text
}

// Serves a dialogue in pieces to a writer. Asserts which bytes it took, and that serving failed if the writer did.
fn fails_after(rt: &impl Abort, alloc: Global, dialogue: &Dialogue, mut writer: Taker, due: &[u8]) {
    let name = dialogue.name;
    let limits = limits_of(dialogue);
    assert!(rt; 1 <= limits.numbers && limits.numbers <= 4294967295 && 1 <= limits.line);
    let mut reader = in_pieces(dialogue.input(), writer.most);
    let ended = serve(alloc, limits, &mut reader, &mut writer);
    assert!(rt; writer.taken.as_slice() == due, "{name}");
    assert!(rt;
        ended.is_ok() == !writer.failed && writer.later == 0,
        "{name}"
    );
    assert!(rt; ended.is_ok() || ended == Err(Fault::Write), "{name}");
}

// Asserts that if each write in turn fails, the output is the bytes of the writes before it. A failing write that is never made changes nothing.
fn fails_at_each_write(rt: &impl Abort, alloc: Global, dialogue: &Dialogue, most: usize) {
    let output = dialogue.output();
    for writes in 0..=output.len() {
        let due = first_writes(output, most, writes);
        let mut writer = all_taken(alloc);
        writer.most = most;
        writer.writes = writes as u64;
        fails_after(rt, alloc, dialogue, writer, due);
        if due.len() == output.len() {
            break;
        }
    }
}

// Asserts that if each flush in turn fails, the output is whole lines, because each line is flushed when it is written.
fn fails_at_each_flush(rt: &impl Abort, alloc: Global, dialogue: &Dialogue, most: usize) {
    let output = dialogue.output();
    for flushes in 0..=newlines(output) {
        let mut writer = all_taken(alloc);
        writer.most = most;
        writer.flushes = flushes as u64;
        let due = first_lines(output, flushes.saturating_add(1));
        fails_after(rt, alloc, dialogue, writer, due);
    }
}

// Asserts that a writer with room for `room` bytes gets the beginning of the output, and that serving fails if that is not all. A full slice takes no
// more bytes.
fn fills_the_room(rt: &impl Abort, alloc: Global, dialogue: &Dialogue, room: usize) {
    let name = dialogue.name;
    let limits = limits_of(dialogue);
    assert!(rt; 1 <= limits.numbers && limits.numbers <= 4294967295 && 1 <= limits.line);
    let mut space = Vec::new(alloc);
    assert!(rt; space.resize(room, 0u8).is_ok());
    let mut reader = in_pieces(dialogue.input(), 65536);
    let mut writer = ToWrite::new(space.as_mut_slice());
    let ended = serve(alloc, limits, &mut reader, &mut writer);
    let rest = writer.into_inner();
    assert!(rt; rest.is_empty(), "{name} {room}");
    assert!(rt;
        ended.is_ok() == (room == dialogue.output().len()),
        "{name} {room}"
    );
    assert!(rt;
        ended.is_ok() || ended == Err(Fault::Write),
        "{name} {room}"
    );
    assert!(rt;
        Some(space.as_slice()) == dialogue.output().get(..room),
        "{name} {room}"
    );
}

// Asserts the outcome for each room up to that of the whole output.
fn fills_each_room(rt: &impl Abort, alloc: Global, dialogue: &Dialogue) {
    for room in 0..=dialogue.output().len() {
        fills_the_room(rt, alloc, dialogue, room);
    }
}

/// Asserts the outcome if each read, write and flush in turn fails, in pieces of 1, 7 and 65,536 bytes, and that a writer is filled to its last byte.
pub(crate) fn is_told_of_each_fault(rt: &impl Abort, alloc: Global, dialogue: &Dialogue) {
    for most in [1, 7, 65536] {
        fails_at_each_read(rt, alloc, dialogue, most);
        fails_at_each_write(rt, alloc, dialogue, most);
        fails_at_each_flush(rt, alloc, dialogue, most);
    }
    fills_each_room(rt, alloc, dialogue);
}

#[test]
fn more_reads_than_are_allowed(rt: HostRuntime) {
    for (input, ended) in [
        (b"\n\n".as_slice(), Ok(Summary { lines: 2 })),
        (b"\n\n\n".as_slice(), Err(Fault::InputTooLong)),
    ] {
        let mut reader = in_pieces(input, 1);
        let mut writer = all_taken(rt.alloc());
        let outcome = serve_within(rt.alloc(), USUAL, 3, &mut reader, &mut writer);
        assert!(rt; outcome == ended);
        let lines =
            b"{\"error\":\"bad-json\"}\n{\"error\":\"bad-json\"}\n{\"error\":\"bad-json\"}\n";
        assert!(rt; writer.taken.as_slice() == first_lines(lines, input.len()));
    }
}

// Each of the two lines is flushed once.
#[test]
fn every_line_is_passed_on(rt: HostRuntime) {
    let mut reader = in_pieces(TWO_LINES, 1);
    let mut writer = all_taken(rt.alloc());
    let ended = serve(rt.alloc(), USUAL, &mut reader, &mut writer);
    assert!(rt; ended.is_ok() && writer.flushed);
    assert_eq!(rt; writer.flushes, u64::MAX - 2);
}
