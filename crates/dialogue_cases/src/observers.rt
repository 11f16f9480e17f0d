//! Written by tools/rows.py from dialogues/observers.

use crate::cuts::is_answered_in_two;
use dialogues::observers::{
    FRAGMENT_OBSERVED, MEMBERS_OF_OPTIONS, NODE_BEFORE_ITSELF, OBSERVER_OPTIONS, OBSERVERS_APART,
    ONE_RECORD_EACH, ORDER_OF_REGISTRATIONS, TRANSIENT_REGISTRATIONS, TRANSIENTS_OF_TRANSIENTS,
    TWO_TOLD,
};

#[test]
fn observers_cut_in_two_1(rt: HostRuntime) {
    for dialogue in [
        &MEMBERS_OF_OPTIONS,
        &NODE_BEFORE_ITSELF,
        &ORDER_OF_REGISTRATIONS,
    ] {
        is_answered_in_two(&rt, rt.alloc(), dialogue);
    }
}

#[test]
fn observers_cut_in_two_2(rt: HostRuntime) {
    for dialogue in [
        &FRAGMENT_OBSERVED,
        &OBSERVER_OPTIONS,
        &OBSERVERS_APART,
        &ONE_RECORD_EACH,
        &TRANSIENT_REGISTRATIONS,
        &TRANSIENTS_OF_TRANSIENTS,
        &TWO_TOLD,
    ] {
        is_answered_in_two(&rt, rt.alloc(), dialogue);
    }
}
