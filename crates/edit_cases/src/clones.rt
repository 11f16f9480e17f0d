//! Nodes that are cloned, and imported into another document. A call that is out of memory leaves the originals unchanged.

ghost use Rattle.dom_edit.specs.Whole.{IsWhole};

use crate::facts::{Fact, NEW, held};
use crate::scenes::{Call, New, Row, When, played};
use crate::small_world::{SMALL_WORLD, of_kind};
use dom_clone::{clone_node, import};
use dom_edit::{Refusal, World};
use dom_kinds::Kind;
use dom_tree::NodeId;
use std::alloc::Global;
use std::process::Abort;
use std::test::Fail;

/// Clones a node, with or without its descendants.
pub(crate) fn copied(
    rt: &impl Abort,
    world: &mut World,
    alloc: Global,
    node: u32,
    deep: bool,
) -> Result<NodeId, Refusal>
    requires { IsWhole world.old }
    ensures { IsWhole world.new }
{
    let node = held(rt, world, node);
    assert!(rt; world.tree.made() < 1000);
    assert!(rt; world.tree.live() < 1000);
    Ok(clone_node(world, alloc, node, deep)?)
}

/// Clones a node with its descendants into a document.
pub(crate) fn imported(
    rt: &impl Abort,
    world: &mut World,
    alloc: Global,
    document: u32,
    node: u32,
) -> Result<NodeId, Refusal>
    requires { IsWhole world.old }
    ensures { IsWhole world.new }
{
    let document = of_kind(rt, world, document, Kind::Document);
    let node = held(rt, world, node);
    assert!(rt; world.tree.made() < 1000);
    assert!(rt; world.tree.live() < 1000);
    import(world, alloc, document, node, true)
}

// Element 1 and its descendants are unchanged.
const ORIGINALS: &[Fact] = &[
    Fact::Children(0, &[1]),
    Fact::Children(1, &[2, 3, 5]),
    Fact::Children(3, &[4]),
    Fact::Data(2, "ab"),
    Fact::Data(4, "cd"),
    Fact::Data(5, "ef"),
];

// Clones element 1 with its descendants.
const A_TREE_IS_COPIED: &[Row] = &[
    Row::Try(Call::New(New::Clone(1, true))),
    Row::Then(
        When::Granted,
        &[
            Fact::Children(13, &[14, 15, 17]),
            Fact::Children(15, &[16]),
            Fact::Data(14, "ab"),
            Fact::Data(16, "cd"),
            Fact::Data(17, "ef"),
        ],
    ),
    Row::Then(When::Refused, &[Fact::Held(13)]),
    Row::Then(When::Refused, ORIGINALS),
    Row::Again(Call::New(New::Clone(1, true))),
    Row::Then(
        When::Always,
        &[
            Fact::Equal(1, NEW),
            Fact::Document(NEW, 0),
            Fact::Roots(&[NEW]),
        ],
    ),
    Row::Then(When::Always, ORIGINALS),
];

// Clones element 1 alone.
const A_NODE_IS_COPIED_ALONE: &[Row] = &[
    Row::Try(Call::New(New::Clone(1, false))),
    Row::Then(When::Refused, &[Fact::Held(13)]),
    Row::Then(When::Refused, ORIGINALS),
    Row::Again(Call::New(New::Clone(1, false))),
    Row::Then(
        When::Always,
        &[
            Fact::Answered(13),
            Fact::Roots(&[13]),
            Fact::Children(13, &[]),
        ],
    ),
];

// Clones element 1 with its descendants into a second document.
const A_TREE_IS_IMPORTED: &[Row] = &[
    Row::Then(When::Always, &[Fact::Made(&[13])]),
    Row::Try(Call::New(New::MakeDocument)),
    Row::Then(When::Refused, &[Fact::Made(&[13])]),
    Row::Again(Call::New(New::MakeDocument)),
    Row::Then(When::Always, &[Fact::Answered(13)]),
    Row::Try(Call::New(New::Import(13, 1))),
    Row::Then(
        When::Granted,
        &[Fact::Children(14, &[15, 16, 18]), Fact::Data(17, "cd")],
    ),
    Row::Then(When::Refused, &[Fact::Held(14)]),
    Row::Then(When::Refused, ORIGINALS),
    Row::Again(Call::New(New::Import(13, 1))),
    Row::Then(
        When::Always,
        &[
            Fact::Equal(1, NEW),
            Fact::Document(NEW, 13),
            Fact::Roots(&[NEW]),
        ],
    ),
    Row::Then(When::Always, ORIGINALS),
];

#[test]
fn scenes(rt: HostRuntime) -> Result<(), Fail> {
    let scenes = [
        ("a tree is copied", A_TREE_IS_COPIED),
        ("a node is copied alone", A_NODE_IS_COPIED_ALONE),
        ("a tree is imported", A_TREE_IS_IMPORTED),
    ];
    played(&rt, rt.alloc(), SMALL_WORLD, &scenes)
}
