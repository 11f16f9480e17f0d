//! Observers whose allocations may be refused. The tests check the state that a refused call left, and repeat the call.

use crate::scenes::{Call, Fact, Part, Row, Watched, When, played};
use std::test::Fail;

// Makes observer 0, and registers it for the data of node 0 and its descendants. If the first call is refused, there is no observer; if the second
// is, it has no registration.
const BEGIN: Part = (
    1,
    &[
        Row::Then(When::Always, &[Fact::Made(0)]),
        Row::Try(Call::Make),
        Row::Then(When::Refused, &[Fact::Made(0)]),
        Row::Again(Call::Make),
        Row::Then(When::Always, &[Fact::Made(1)]),
        Row::Try(Call::Watch(0, 0, Watched::DataBelow)),
        Row::Then(When::Refused, &[Fact::Idle(true)]),
        Row::Again(Call::Watch(0, 0, Watched::DataBelow)),
        Row::Then(When::Always, &[Fact::Idle(false)]),
    ],
);

// No record is queued for observer 0, and nobody is pending.
const NOTHING: &[Fact] = &[Fact::Waiting(0, 0), Fact::Pending(0, None)];

// Removes node 1 from node 0. If it is refused, there is no transient registration.
const LEAVE: Part = (
    1,
    &[
        Row::Try(Call::Leave),
        Row::Then(When::Refused, &[Fact::Counts(1, 1), Fact::Named(1, false)]),
        Row::Again(Call::Leave),
        Row::Then(When::Always, &[Fact::Counts(1, 2)]),
    ],
);

// Changes the data of node 0. If it is refused, no record is queued, and nobody is pending.
const CHANGE_THE_TOP: Part = (
    1,
    &[
        Row::Try(Call::ChangeData(0)),
        Row::Then(When::Refused, NOTHING),
        Row::Again(Call::ChangeData(0)),
    ],
);

// Changes the data of node 1. If it is refused, no record is queued, and nobody is pending.
const CHANGE: Part = (
    1,
    &[
        Row::Try(Call::ChangeData(1)),
        Row::Then(When::Refused, NOTHING),
        Row::Again(Call::ChangeData(1)),
    ],
);

// The observer gets its record.
const A_RECORD_IS_QUEUED: &[Part] = &[
    BEGIN,
    CHANGE_THE_TOP,
    (
        1,
        &[Row::Then(
            When::Always,
            &[Fact::Pending(0, Some(0)), Fact::One(0, 0, "c")],
        )],
    ),
];

#[test]
fn a_record_is_queued(rt: HostRuntime) -> Result<(), Fail> {
    played(&rt, rt.alloc(), A_RECORD_IS_QUEUED)
}

// The observer gets records of node 1 until it is notified once. If that is refused, they stay queued.
const A_NODE_THAT_LEFT_IS_TOLD_OF_ONCE: &[Part] = &[
    BEGIN,
    LEAVE,
    CHANGE,
    (
        1,
        &[
            Row::Do(Call::Notify(1)),
            Row::Then(When::Always, &[Fact::Pending(0, None)]),
        ],
    ),
    CHANGE,
    (1, &[Row::Once(Call::Notify(0))]),
];

#[test]
fn a_node_that_left_is_told_of_once(rt: HostRuntime) -> Result<(), Fail> {
    played(&rt, rt.alloc(), A_NODE_THAT_LEFT_IS_TOLD_OF_ONCE)
}

// Takes the pending observers. If that is refused, they are still pending.
const TAKE_PENDING: Part = (
    1,
    &[
        Row::Try(Call::TakePending(1)),
        Row::Then(When::Refused, &[Fact::Pending(0, Some(0))]),
        Row::Again(Call::TakePending(1)),
        Row::Then(When::Always, &[Fact::Pending(0, None)]),
    ],
);

// The observer is notified of node 1 in its turn, and not afterwards.
const AN_OBSERVER_IS_TOLD_IN_ITS_TURN: &[Part] = &[
    BEGIN,
    LEAVE,
    CHANGE,
    TAKE_PENDING,
    (1, &[Row::Once(Call::TellInTurn(0, 1))]),
    CHANGE,
    (1, &[Row::Then(When::Always, &[Fact::Pending(0, None)])]),
];

#[test]
fn an_observer_is_told_in_its_turn(rt: HostRuntime) -> Result<(), Fail> {
    played(&rt, rt.alloc(), AN_OBSERVER_IS_TOLD_IN_ITS_TURN)
}

// A record stays queued for its turn while all pending observers are notified, and refers to its node until then.
const A_RECORD_WAITS_FOR_ITS_TURN: &[Part] = &[
    BEGIN,
    LEAVE,
    CHANGE,
    TAKE_PENDING,
    (
        1,
        &[
            Row::Once(Call::Notify(0)),
            Row::Then(When::Always, &[Fact::Named(1, true)]),
            Row::Once(Call::TellInTurn(0, 1)),
            Row::Then(When::Always, &[Fact::Named(1, false)]),
        ],
    ),
];

#[test]
fn a_record_waits_for_its_turn(rt: HostRuntime) -> Result<(), Fail> {
    played(&rt, rt.alloc(), A_RECORD_WAITS_FOR_ITS_TURN)
}

// A registration refers to its node. A transient one refers to its own node too, until the observer is notified.
const WHAT_REGISTRATIONS_NAME: Part = (
    1,
    &[
        Row::Then(When::Always, &[Fact::Named(0, true), Fact::Named(1, false)]),
        Row::Do(Call::Leave),
        Row::Then(When::Always, &[Fact::Named(1, true)]),
        Row::Once(Call::Notify(0)),
        Row::Then(When::Always, &[Fact::Named(1, false)]),
    ],
);

// A record refers to its nodes until it is taken. The observer observes the children of node 0 instead of its earlier options.
const WHAT_RECORDS_NAME: Part = (
    1,
    &[
        Row::Do(Call::Watch(0, 0, Watched::Children)),
        Row::Try(Call::TellOfLeaving),
        Row::Then(When::Refused, NOTHING),
        Row::Again(Call::TellOfLeaving),
        Row::Then(
            When::Always,
            &[
                Fact::Named(1, true),
                Fact::Waiting(0, 1),
                Fact::Named(1, false),
                Fact::Named(0, true),
            ],
        ),
    ],
);

#[test]
fn what_is_named(rt: HostRuntime) -> Result<(), Fail> {
    let parts = &[BEGIN, WHAT_REGISTRATIONS_NAME, WHAT_RECORDS_NAME];
    played(&rt, rt.alloc(), parts)
}

// Nine observers observe the descendants of node 0. So a node has more registrations of ancestors than the few that are looked up one by one among
// its own.
const BEGIN_MANY: Part = (
    1,
    &[
        Row::Do(Call::Make),
        Row::Do(Call::Watch(0, 0, Watched::DataBelow)),
        Row::Do(Call::Make),
        Row::Do(Call::Watch(1, 0, Watched::DataBelow)),
        Row::Do(Call::Make),
        Row::Do(Call::Watch(2, 0, Watched::DataBelow)),
        Row::Do(Call::Make),
        Row::Do(Call::Watch(3, 0, Watched::DataBelow)),
        Row::Do(Call::Make),
        Row::Do(Call::Watch(4, 0, Watched::DataBelow)),
        Row::Do(Call::Make),
        Row::Do(Call::Watch(5, 0, Watched::DataBelow)),
        Row::Do(Call::Make),
        Row::Do(Call::Watch(6, 0, Watched::DataBelow)),
        Row::Do(Call::Make),
        Row::Do(Call::Watch(7, 0, Watched::DataBelow)),
        Row::Do(Call::Make),
        Row::Do(Call::Watch(8, 0, Watched::DataBelow)),
        Row::Then(When::Always, &[Fact::Made(9)]),
    ],
);

const ONE_EACH: &[Fact] = &[
    Fact::Waiting(0, 1),
    Fact::Waiting(1, 1),
    Fact::Waiting(2, 1),
    Fact::Waiting(3, 1),
    Fact::Waiting(4, 1),
    Fact::Waiting(5, 1),
    Fact::Waiting(6, 1),
    Fact::Waiting(7, 1),
    Fact::Waiting(8, 1),
];

// No record is queued for any of them.
const NONE_EACH: &[Fact] = &[
    Fact::Waiting(0, 0),
    Fact::Waiting(1, 0),
    Fact::Waiting(2, 0),
    Fact::Waiting(3, 0),
    Fact::Waiting(4, 0),
    Fact::Waiting(5, 0),
    Fact::Waiting(6, 0),
    Fact::Waiting(7, 0),
    Fact::Waiting(8, 0),
];

// Changes the data of node 1. If it is refused, no record is queued, and nobody is pending.
const CHANGE_FOR_MANY: Part = (
    1,
    &[
        Row::Try(Call::ChangeData(1)),
        Row::Then(When::Refused, NONE_EACH),
        Row::Then(When::Refused, &[Fact::Pending(0, None)]),
        Row::Again(Call::ChangeData(1)),
    ],
);

// Removes node 1 from node 0 twice. If it is refused, the registrations are those from before. Each observer is notified of the change once, and of none after all were notified.
const A_NODE_LEAVES_MANY: &[Part] = &[
    BEGIN_MANY,
    (
        1,
        &[
            Row::Try(Call::Leave),
            Row::Then(When::Refused, &[Fact::Counts(9, 9)]),
            Row::Again(Call::Leave),
            Row::Then(When::Always, &[Fact::Counts(9, 18)]),
            Row::Try(Call::Leave),
            Row::Then(When::Refused, &[Fact::Counts(9, 18)]),
            Row::Again(Call::Leave),
            Row::Then(When::Always, &[Fact::Counts(9, 18)]),
        ],
    ),
    CHANGE_FOR_MANY,
    (
        1,
        &[
            Row::Then(When::Always, ONE_EACH),
            Row::Once(Call::Notify(0)),
        ],
    ),
    CHANGE_FOR_MANY,
    (1, &[Row::Then(When::Always, NONE_EACH)]),
];

#[test]
fn a_node_leaves_many(rt: HostRuntime) -> Result<(), Fail> {
    played(&rt, rt.alloc(), A_NODE_LEAVES_MANY)
}

// Changes the data of node 0 twice. If the second change is refused, each observer has the record of the first, and is pending in its turn.
const EARLIER_RECORDS_STAY: &[Part] = &[
    BEGIN_MANY,
    (
        1,
        &[
            Row::Do(Call::ChangeData(0)),
            Row::Try(Call::ChangeData(0)),
            Row::Then(When::Refused, ONE_EACH),
            Row::Then(
                When::Always,
                &[
                    Fact::Pending(0, Some(0)),
                    Fact::Pending(8, Some(8)),
                    Fact::Pending(9, None),
                ],
            ),
        ],
    ),
];

#[test]
fn earlier_records_stay(rt: HostRuntime) -> Result<(), Fail> {
    played(&rt, rt.alloc(), EARLIER_RECORDS_STAY)
}

// Removes node 1 from node 0, which nine observers observe with its descendants, and two with its children. If it is refused, there is no transient
// registration and no record, and nobody is pending.
const A_REMOVAL_IS_REFUSED: &[Part] = &[
    BEGIN_MANY,
    (
        1,
        &[
            Row::Do(Call::Make),
            Row::Do(Call::Watch(9, 0, Watched::Children)),
            Row::Do(Call::Make),
            Row::Do(Call::Watch(10, 0, Watched::Children)),
            Row::Try(Call::LeaveAndTell),
            Row::Then(
                When::Refused,
                &[
                    Fact::Counts(11, 11),
                    Fact::Named(1, false),
                    Fact::Waiting(9, 0),
                    Fact::Waiting(10, 0),
                    Fact::Pending(0, None),
                ],
            ),
            Row::Again(Call::LeaveAndTell),
            Row::Then(
                When::Always,
                &[
                    Fact::Counts(11, 20),
                    Fact::Named(1, true),
                    Fact::Waiting(9, 1),
                    Fact::Waiting(10, 1),
                    Fact::Pending(0, Some(9)),
                    Fact::Pending(1, Some(10)),
                    Fact::Pending(2, None),
                ],
            ),
        ],
    ),
];

#[test]
fn a_removal_is_refused(rt: HostRuntime) -> Result<(), Fail> {
    played(&rt, rt.alloc(), A_REMOVAL_IS_REFUSED)
}

// Observers are made and released, and no number is reused. Each of two thousand is made and released. Then two are made, and the second moves into
// the slot of the first.
const NUMBERS_ARE_NOT_USED_AGAIN: &[Part] = &[
    (2_000, &[Row::Do(Call::Make), Row::Once(Call::ReleaseLast)]),
    (
        1,
        &[
            Row::Then(When::Always, &[Fact::Made(2_000)]),
            Row::Do(Call::Make),
            Row::Do(Call::Make),
            Row::Then(When::Always, &[Fact::Made(2_002), Fact::Held(2_000, true)]),
            Row::Once(Call::Release(2_000)),
            Row::Then(
                When::Always,
                &[Fact::Held(2_001, true), Fact::Held(2_002, false)],
            ),
        ],
    ),
];

#[test]
fn numbers_are_not_used_again(rt: HostRuntime) -> Result<(), Fail> {
    played(&rt, rt.alloc(), NUMBERS_ARE_NOT_USED_AGAIN)
}

// Releases observer 0 while it has a registration, a transient one and a record, and is pending. Nothing is left of it.
const A_RELEASED_ONE_IS_TOLD_NOTHING: &[Part] = &[
    BEGIN,
    LEAVE,
    CHANGE,
    (
        1,
        &[
            Row::Then(
                When::Always,
                &[
                    Fact::Named(0, true),
                    Fact::Named(1, true),
                    Fact::Counts(1, 2),
                ],
            ),
            Row::Once(Call::Release(0)),
            Row::Then(
                When::Always,
                &[
                    Fact::Idle(true),
                    Fact::Pending(0, None),
                    Fact::Counts(0, 0),
                    Fact::Named(0, false),
                    Fact::Named(1, false),
                ],
            ),
            Row::Do(Call::ChangeData(1)),
            Row::Then(When::Always, &[Fact::Pending(0, None)]),
            Row::Once(Call::Notify(0)),
        ],
    ),
];

#[test]
fn a_released_one_is_told_nothing(rt: HostRuntime) -> Result<(), Fail> {
    played(&rt, rt.alloc(), A_RELEASED_ONE_IS_TOLD_NOTHING)
}

// Releases one of many pending observers. The others are notified in the order in which they became pending, of one record each. If that is refused,
// the records stay queued.
const THE_OTHERS_ARE_TOLD_IN_ORDER: &[Part] = &[
    BEGIN_MANY,
    (
        1,
        &[
            Row::Try(Call::ChangeData(0)),
            Row::Then(When::Refused, NONE_EACH),
            Row::Then(When::Refused, &[Fact::Pending(0, None)]),
            Row::Again(Call::ChangeData(0)),
            Row::Once(Call::Release(3)),
            Row::Then(
                When::Always,
                &[
                    Fact::Pending(2, Some(2)),
                    Fact::Pending(3, Some(4)),
                    Fact::Pending(7, Some(8)),
                    Fact::Pending(8, None),
                ],
            ),
            Row::Do(Call::Notify(8)),
            Row::Then(When::Always, &[Fact::Pending(0, None)]),
        ],
    ),
];

#[test]
fn the_others_are_told_in_order(rt: HostRuntime) -> Result<(), Fail> {
    played(&rt, rt.alloc(), THE_OTHERS_ARE_TOLD_IN_ORDER)
}

// Disconnects some observers of a node, from the middle, the front and the end of its list, and registers one of them again. The observers are
// notified in the order of their registrations.
const SOME_LET_GO_OF_A_NODE: &[Part] = &[
    BEGIN_MANY,
    (
        1,
        &[
            Row::Once(Call::Disconnect(4)),
            Row::Once(Call::Disconnect(0)),
            Row::Once(Call::Disconnect(8)),
            Row::Then(When::Always, &[Fact::Counts(9, 6)]),
            Row::Do(Call::Watch(4, 0, Watched::DataBelow)),
            Row::Try(Call::ChangeData(0)),
            Row::Then(When::Refused, NONE_EACH),
            Row::Then(When::Refused, &[Fact::Pending(0, None)]),
            Row::Again(Call::ChangeData(0)),
            Row::Then(
                When::Always,
                &[
                    Fact::Counts(9, 7),
                    Fact::Pending(0, Some(1)),
                    Fact::Pending(3, Some(5)),
                    Fact::Pending(5, Some(7)),
                    Fact::Pending(6, Some(4)),
                    Fact::Pending(7, None),
                ],
            ),
        ],
    ),
];

#[test]
fn some_let_go_of_a_node(rt: HostRuntime) -> Result<(), Fail> {
    played(&rt, rt.alloc(), SOME_LET_GO_OF_A_NODE)
}

// Registers observer 0 for attributes of node 0 with two names, and observer 1 with ten, two of them given twice.
const BEGIN_BY_NAMES: Part = (
    1,
    &[
        Row::Do(Call::Make),
        Row::Do(Call::Watch(0, 0, Watched::Attributes(&["b", "k"]))),
        Row::Do(Call::Make),
        Row::Do(Call::Watch(
            1,
            0,
            Watched::Attributes(&["a", "b", "a", "c", "d", "e", "f", "g", "h", "i", "j", "j"]),
        )),
        Row::Then(When::Always, &[Fact::Counts(2, 2)]),
    ],
);

// Each is notified of its names, including the first, the last and those given twice, and of no others.
const NAMES_ARE_FOUND: &[Part] = &[
    BEGIN_BY_NAMES,
    (
        1,
        &[
            Row::Try(Call::ChangeAttribute(0, "a")),
            Row::Then(When::Refused, &[Fact::Waiting(1, 0)]),
            Row::Again(Call::ChangeAttribute(0, "a")),
            Row::Then(When::Always, &[Fact::Waiting(0, 0), Fact::Waiting(1, 1)]),
            Row::Try(Call::ChangeAttribute(0, "j")),
            Row::Then(When::Refused, &[Fact::Waiting(1, 0)]),
            Row::Again(Call::ChangeAttribute(0, "j")),
            Row::Then(When::Always, &[Fact::Waiting(0, 0), Fact::Waiting(1, 1)]),
            Row::Try(Call::ChangeAttribute(0, "k")),
            Row::Then(When::Refused, &[Fact::Waiting(0, 0)]),
            Row::Again(Call::ChangeAttribute(0, "k")),
            Row::Then(When::Always, &[Fact::Waiting(0, 1), Fact::Waiting(1, 0)]),
            Row::Do(Call::ChangeAttribute(0, "ab")),
            Row::Do(Call::ChangeAttribute(0, "")),
            Row::Do(Call::ChangeAttribute(1, "a")),
            Row::Then(When::Always, &[Fact::Waiting(0, 0), Fact::Waiting(1, 0)]),
        ],
    ),
];

#[test]
fn names_are_found(rt: HostRuntime) -> Result<(), Fail> {
    played(&rt, rt.alloc(), NAMES_ARE_FOUND)
}
