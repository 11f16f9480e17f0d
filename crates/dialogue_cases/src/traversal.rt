//! Written by tools/rows.py from dialogues/traversal.

use crate::cuts::is_answered_in_two;
use dialogues::traversal::{
    FILTERS_BY_KIND_AND_NAME, ITERATOR_FALLS_BACK, ITERATOR_GIVES_WAY, WALKER_LISTS, WALKER_MOVES,
    WALKER_OUTSIDE_ITS_ROOT, WALKER_PAST_ITS_ROOT,
};

#[test]
fn traversal_cut_in_two_1(rt: HostRuntime) {
    for dialogue in [&WALKER_OUTSIDE_ITS_ROOT, &WALKER_PAST_ITS_ROOT] {
        is_answered_in_two(&rt, rt.alloc(), dialogue);
    }
}

#[test]
fn traversal_cut_in_two_2(rt: HostRuntime) {
    for dialogue in [&WALKER_LISTS] {
        is_answered_in_two(&rt, rt.alloc(), dialogue);
    }
}

#[test]
fn traversal_cut_in_two_3(rt: HostRuntime) {
    for dialogue in [
        &FILTERS_BY_KIND_AND_NAME,
        &ITERATOR_FALLS_BACK,
        &ITERATOR_GIVES_WAY,
        &WALKER_MOVES,
    ] {
        is_answered_in_two(&rt, rt.alloc(), dialogue);
    }
}
