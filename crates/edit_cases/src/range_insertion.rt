//! Nodes that are inserted at the start of a live range, and around its contents. After a call that is out of memory, the test continues in the world
//! that it left.

ghost use Rattle.dom_edit.specs.Whole.{IsWhole};

use crate::contents::selected;
use crate::facts::{Fact, held};
use crate::scenes::{Call, Row, When, played};
use crate::small_world::SMALL_WORLD;
use dom_edit::{Refusal, World};
use dom_wrap::{insert_node, surround};
use std::alloc::Global;
use std::process::Abort;
use std::test::Fail;

/// Inserts a node at the start of live range 0.
pub(crate) fn insert_at_start(
    rt: &impl Abort,
    world: &mut World,
    alloc: Global,
    node: u32,
) -> Result<(), Refusal>
    requires { IsWhole world.old }
    ensures { IsWhole world.new }
{
    let range = selected(rt, world);
    let node = held(rt, world, node);
    assert!(rt; world.tree.made() < 4294967295);
    insert_node(world, alloc, range, node)
}

// Splits Text 2, and inserts element 6 between its parts.
const A_NODE_IS_INSERTED_AT_A_START: &[Row] = &[
    Row::Do(Call::Select(2, 5)),
    Row::Try(Call::InsertNode(6)),
    Row::Then(
        When::Granted,
        &[Fact::Children(1, &[2, 6, 13, 3, 5]), Fact::Data(13, "b")],
    ),
    Row::Then(When::Refused, &[Fact::Held(13)]),
    Row::Again(Call::InsertNode(6)),
    Row::Then(
        When::Always,
        &[
            Fact::Behind(6, 2),
            Fact::Data(2, "a"),
            Fact::Children(6, &[7, 8, 9]),
        ],
    ),
];

/// Surrounds the contents of live range 0 with a node.
pub(crate) fn put_around(
    rt: &impl Abort,
    world: &mut World,
    alloc: Global,
    node: u32,
) -> Result<(), Refusal>
    requires { IsWhole world.old }
    ensures { IsWhole world.new }
{
    let range = selected(rt, world);
    let node = held(rt, world, node);
    assert!(rt; world.tree.made() < 1000);
    assert!(rt; world.tree.live() < 1000);
    surround(world, alloc, range, node)
}

// Surrounds the contents of the range with element 6, which is inserted at their place.
const CONTENTS_ARE_SURROUNDED: &[Row] = &[
    Row::Do(Call::Select(2, 5)),
    Row::Try(Call::Surround(6)),
    Row::Then(
        When::Granted,
        &[
            Fact::Children(6, &[14, 3, 15]),
            Fact::Data(14, "b"),
            Fact::Data(15, "e"),
        ],
    ),
    Row::Then(When::Refused, &[Fact::Held(13)]),
    Row::Again(Call::Surround(6)),
    Row::Then(
        When::Always,
        &[
            Fact::Children(1, &[2, 6, 5]),
            Fact::Data(2, "a"),
            Fact::Data(5, "f"),
            Fact::Ends(1, 2),
            Fact::Roots(&[7, 8, 9]),
        ],
    ),
];

#[test]
fn scenes(rt: HostRuntime) -> Result<(), Fail> {
    let scenes = [
        (
            "a node is inserted at a start",
            A_NODE_IS_INSERTED_AT_A_START,
        ),
        ("contents are surrounded", CONTENTS_ARE_SURROUNDED),
    ];
    played(&rt, rt.alloc(), SMALL_WORLD, &scenes)
}
