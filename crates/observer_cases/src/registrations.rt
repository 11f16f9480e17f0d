//! The registrations of one observer on many nodes.

use crate::scenes::{Call, Fact, Part, Row, When, played};
use dom_observe::RawOptions;
use std::test::Fail;

/// Returns options without members.
pub(crate) fn nothing() -> RawOptions {
    RawOptions {
        child_list: None,
        attributes: None,
        character_data: None,
        subtree: None,
        attribute_old_value: None,
        character_data_old_value: None,
        attribute_filter: None,
    }
}

// Registers an observer on a hundred nodes, and disconnects it. The first registration on a node takes memory. If memory is refused, the second call
// makes it.
const A_HUNDRED_NODES: &[Part] = &[(
    1,
    &[
        Row::Then(When::Always, &[Fact::Made(0)]),
        Row::Do(Call::Make),
        Row::Once(Call::WatchEach(100)),
        Row::Then(When::Always, &[Fact::Made(1), Fact::Idle(false)]),
        Row::Once(Call::Disconnect(0)),
        Row::Then(When::Always, &[Fact::Idle(true)]),
    ],
)];

// Each of the first hundred allocations may be refused, and the registrations are the same in the end.
#[test]
fn a_hundred_nodes(rt: HostRuntime) -> Result<(), Fail> {
    played(&rt, rt.alloc(), A_HUNDRED_NODES)
}
