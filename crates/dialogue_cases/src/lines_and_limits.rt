//! Written by tools/rows.py from dialogues/lines_and_limits.

use crate::cuts::is_answered_in_two;
use dialogues::lines_and_limits::{
    BLANK_LINE, BYTES_OF_NO_TEXT, COPIES_LIMITED, DEEP_LINES, HOSTILE_LINES, LINES_AT_THE_LIMIT,
    LINES_LIMITED, LINES_OF_NO_COMMAND, MALFORMED_LINES, NO_INPUT, NODES_LIMITED, NUMBERS_LIMITED,
    NUMBERS_WRITTEN_OTHERWISE, ONE_BYTE_LINES, REFUSALS_SPEND_NOTHING, REFUSED_LINES,
    ROOM_AFTER_DISCARDING, THREE_BLANK_LINES, TWO_BLANK_LINES, UNITS_AND_SURROGATES,
    WATCHERS_LIMITED,
};

#[test]
fn lines_and_limits_cut_in_two_1(rt: HostRuntime) {
    for dialogue in [&DEEP_LINES] {
        is_answered_in_two(&rt, rt.alloc(), dialogue);
    }
}

#[test]
fn lines_and_limits_cut_in_two_2(rt: HostRuntime) {
    for dialogue in [
        &BLANK_LINE,
        &LINES_OF_NO_COMMAND,
        &NO_INPUT,
        &REFUSALS_SPEND_NOTHING,
        &REFUSED_LINES,
        &ROOM_AFTER_DISCARDING,
        &THREE_BLANK_LINES,
        &TWO_BLANK_LINES,
        &UNITS_AND_SURROGATES,
    ] {
        is_answered_in_two(&rt, rt.alloc(), dialogue);
    }
}

#[test]
fn lines_and_limits_cut_in_two_3(rt: HostRuntime) {
    for dialogue in [
        &BYTES_OF_NO_TEXT,
        &COPIES_LIMITED,
        &HOSTILE_LINES,
        &LINES_AT_THE_LIMIT,
        &LINES_LIMITED,
        &MALFORMED_LINES,
        &NODES_LIMITED,
        &NUMBERS_LIMITED,
        &NUMBERS_WRITTEN_OTHERWISE,
        &ONE_BYTE_LINES,
        &WATCHERS_LIMITED,
    ] {
        is_answered_in_two(&rt, rt.alloc(), dialogue);
    }
}
