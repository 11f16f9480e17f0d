//! Written by tools/rows.py from dialogues/trees_and_data.

use crate::cuts::is_answered_in_two;
use dialogues::trees_and_data::{
    ATTRIBUTES_IN_ORDER, CHILDREN_OF_A_DOCUMENT, COPIES_AND_POSITIONS, DATA_COUNTED_IN_UNITS,
    DISCARDED_TREES, DOCUMENTS_OF_COPIES, LONE_SURROGATE, MOVES_BETWEEN_DOCUMENTS, MOVES_REFUSED,
    ORDER_OF_CHILDREN, ORDER_OF_INSERT_REFUSALS, SPLIT_PAST_THE_END, TREE_PRINTED,
};

#[test]
fn trees_and_data_cut_in_two_1(rt: HostRuntime) {
    for dialogue in [
        &ATTRIBUTES_IN_ORDER,
        &CHILDREN_OF_A_DOCUMENT,
        &COPIES_AND_POSITIONS,
        &DATA_COUNTED_IN_UNITS,
        &DISCARDED_TREES,
        &DOCUMENTS_OF_COPIES,
        &LONE_SURROGATE,
        &MOVES_BETWEEN_DOCUMENTS,
        &MOVES_REFUSED,
        &ORDER_OF_CHILDREN,
        &ORDER_OF_INSERT_REFUSALS,
        &SPLIT_PAST_THE_END,
        &TREE_PRINTED,
    ] {
        is_answered_in_two(&rt, rt.alloc(), dialogue);
    }
}
