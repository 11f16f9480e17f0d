//! Written by tools/rows.py from dialogues/bad_input.

use crate::cuts::is_answered_in_two;
use dialogues::bad_input::{
    ATTRIBUTES_REFUSED, COPIES_AND_COMPARISONS_REFUSED, DATA_CHANGES_REFUSED, DATA_PARTS_REFUSED,
    FORBIDDEN_ATTRIBUTE_NAMES, FORBIDDEN_CHARACTERS, INSERTIONS_REFUSED, MAKING_REFUSED,
    OBSERVERS_REFUSED, QUESTIONS_REFUSED, RANGE_COMPARISONS_REFUSED, RANGE_CONTENTS_REFUSED,
    RANGE_ENDS_REFUSED, RANGES_REFUSED, REMOVALS_REFUSED, STATIC_RANGES_REFUSED,
    WALKS_BEGUN_REFUSED, WALKS_REFUSED,
};

#[test]
fn bad_input_cut_in_two_1(rt: HostRuntime) {
    for dialogue in [&FORBIDDEN_CHARACTERS, &OBSERVERS_REFUSED] {
        is_answered_in_two(&rt, rt.alloc(), dialogue);
    }
}

#[test]
fn bad_input_cut_in_two_2(rt: HostRuntime) {
    for dialogue in [
        &ATTRIBUTES_REFUSED,
        &FORBIDDEN_ATTRIBUTE_NAMES,
        &REMOVALS_REFUSED,
    ] {
        is_answered_in_two(&rt, rt.alloc(), dialogue);
    }
}

#[test]
fn bad_input_cut_in_two_3(rt: HostRuntime) {
    for dialogue in [
        &MAKING_REFUSED,
        &RANGE_COMPARISONS_REFUSED,
        &RANGE_CONTENTS_REFUSED,
        &RANGE_ENDS_REFUSED,
    ] {
        is_answered_in_two(&rt, rt.alloc(), dialogue);
    }
}

#[test]
fn bad_input_cut_in_two_4(rt: HostRuntime) {
    for dialogue in [
        &COPIES_AND_COMPARISONS_REFUSED,
        &DATA_CHANGES_REFUSED,
        &INSERTIONS_REFUSED,
        &RANGES_REFUSED,
        &WALKS_REFUSED,
    ] {
        is_answered_in_two(&rt, rt.alloc(), dialogue);
    }
}

#[test]
fn bad_input_cut_in_two_5(rt: HostRuntime) {
    for dialogue in [
        &DATA_PARTS_REFUSED,
        &QUESTIONS_REFUSED,
        &STATIC_RANGES_REFUSED,
        &WALKS_BEGUN_REFUSED,
    ] {
        is_answered_in_two(&rt, rt.alloc(), dialogue);
    }
}
