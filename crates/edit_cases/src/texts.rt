//! Changes of data and Texts. After a call that is out of memory, the test continues in the world that it left.

ghost use Rattle.std.specs.Prelude.{◌≡◌, true};
ghost use Rattle.dom_model.specs.Forests.Kinds.{is_character_data};
ghost use Rattle.dom_model.specs.Forests.Nodes.{kind_passes};
ghost use Rattle.dom_edit.specs.Whole.{IsWhole};

use crate::facts::{Fact, NEW, held};
use crate::scenes::{Call, Change, New, Row, When, played};
use crate::small_world::{SMALL_WORLD, of_kind};
use dom_data::{normalize, replace_data, set_data, set_text_content, split};
use dom_edit::{Refusal, World};
use dom_kinds::Kind;
use dom_tree::NodeId;
use dom_units::Units;
use std::alloc::Global;
use std::process::Abort;
use std::test::Fail;

/// Sets the text content of a node.
pub(crate) fn fill(
    rt: &impl Abort,
    world: &mut World,
    alloc: Global,
    node: u32,
    text: &str,
) -> Result<(), Refusal>
    requires { IsWhole world.old }
    ensures { IsWhole world.new }
{
    let text = Units::from_str(alloc, text)?;
    let node = held(rt, world, node);
    assert!(rt; world.tree.made() < 4294967295);
    Ok(set_text_content(world, alloc, node, text)?)
}

const FILL_AN_ELEMENT: Call = Call::Change(1, Change::SetTextContent("mn"));

// Replaces the children of element 1 by a Text. If the first call is refused, it may have made one nevertheless.
const AN_ELEMENT_IS_FILLED: &[Row] = &[
    Row::Try(FILL_AN_ELEMENT),
    Row::Then(When::Granted, &[Fact::Made(&[14])]),
    Row::Then(When::Refused, &[Fact::Held(13)]),
    Row::Again(FILL_AN_ELEMENT),
    Row::Then(
        When::Always,
        &[
            Fact::Made(&[14, 15]),
            Fact::Children(3, &[4]),
            Fact::Roots(&[2, 3, 5]),
        ],
    ),
    Row::Then(
        When::Made(14),
        &[Fact::Children(1, &[13]), Fact::Data(13, "mn")],
    ),
    Row::Then(
        When::Made(15),
        &[Fact::Children(1, &[14]), Fact::Data(14, "mn")],
    ),
];

const FILL_A_TEXT: Call = Call::Change(2, Change::SetTextContent("mnop"));

// Replaces all data of Text 2.
const A_TEXT_IS_FILLED: &[Row] = &[
    Row::Try(FILL_A_TEXT),
    Row::Then(When::Refused, &[Fact::Held(13), Fact::Data(2, "ab")]),
    Row::Again(FILL_A_TEXT),
    Row::Then(
        When::Always,
        &[Fact::Data(2, "mnop"), Fact::Children(1, &[2, 3, 5])],
    ),
];

// Returns the node with a number, and asserts that it exists and has character data.
fn with_data(rt: &impl Abort, world: &World, number: u32) -> NodeId
    ensures { kind_passes is_character_data world.now.tree.forest result ≡ true }
{
    let node = held(rt, world, number);
    assert!(rt; world.tree.has_data(node));
    node
}

/// Replaces units of a node's data from an offset on.
pub(crate) fn replace_units(
    rt: &impl Abort,
    world: &mut World,
    alloc: Global,
    node: u32,
    place: (usize, usize),
    added: &[u16],
) -> Result<(), Refusal>
    requires { IsWhole world.old }
    ensures { IsWhole world.new }
{
    let node = with_data(rt, world, node);
    replace_data(world, alloc, node, place.0, place.1, added)
}

// Replaces all units after the first by "m", "n" and "o".
const REPLACE_UNITS: Call = Call::Change(2, Change::ReplaceData(1, 9, &[109, 110, 111]));

// Replaces the data of Text 2 from an offset on.
const UNITS_ARE_REPLACED: &[Row] = &[
    Row::Try(REPLACE_UNITS),
    Row::Then(When::Refused, &[Fact::Held(13), Fact::Data(2, "ab")]),
    Row::Again(REPLACE_UNITS),
    Row::Then(When::Always, &[Fact::Data(2, "amno")]),
];

/// Sets all data of a node.
pub(crate) fn set_units(
    rt: &impl Abort,
    world: &mut World,
    alloc: Global,
    node: u32,
    added: &[u16],
) -> Result<(), Refusal>
    requires { IsWhole world.old }
    ensures { IsWhole world.new }
{
    let node = with_data(rt, world, node);
    Ok(set_data(world, alloc, node, added)?)
}

// Sets "m", "n" and "o".
const SET_UNITS: Call = Call::Change(11, Change::SetData(&[109, 110, 111]));

// Replaces all data of comment 11.
const ALL_DATA_IS_SET: &[Row] = &[
    Row::Try(SET_UNITS),
    Row::Then(When::Refused, &[Fact::Held(13), Fact::Data(11, "kl")]),
    Row::Again(SET_UNITS),
    Row::Then(When::Always, &[Fact::Data(11, "mno")]),
];

/// Splits a Text at an offset.
pub(crate) fn split_at(
    rt: &impl Abort,
    world: &mut World,
    alloc: Global,
    node: u32,
    offset: usize,
) -> Result<NodeId, Refusal>
    requires { IsWhole world.old }
    ensures { IsWhole world.new }
{
    let node = of_kind(rt, world, node, Kind::Text);
    assert!(rt; world.tree.made() < 4294967295);
    split(world, alloc, node, offset)
}

// Splits Text 2 after its first unit. The new Text is its next sibling.
const A_TEXT_IS_SPLIT: &[Row] = &[
    Row::Try(Call::New(New::Split(2, 1))),
    Row::Then(
        When::Granted,
        &[
            Fact::Answered(13),
            Fact::Children(1, &[2, 13, 3, 5]),
            Fact::Data(13, "b"),
        ],
    ),
    Row::Then(When::Refused, &[Fact::Held(13)]),
    Row::Again(Call::New(New::Split(2, 1))),
    Row::Then(
        When::Always,
        &[
            Fact::Data(NEW, "b"),
            Fact::Behind(NEW, 2),
            Fact::Data(2, "a"),
        ],
    ),
];

/// Normalizes the Texts below a node.
pub(crate) fn join(
    rt: &impl Abort,
    world: &mut World,
    alloc: Global,
    node: u32,
) -> Result<(), Refusal>
    requires { IsWhole world.old }
    ensures { IsWhole world.new }
{
    let node = held(rt, world, node);
    Ok(normalize(world, alloc, node)?)
}

// The Texts in element 6 become one.
const TEXTS_ARE_JOINED: &[Row] = &[
    Row::Try(Call::Change(6, Change::Normalize)),
    Row::Then(When::Refused, &[Fact::Held(13)]),
    Row::Again(Call::Change(6, Change::Normalize)),
    Row::Then(
        When::Always,
        &[Fact::Children(6, &[8]), Fact::Roots(&[7, 9])],
    ),
    Row::Then(When::Granted, &[Fact::Data(8, "ghij")]),
];

#[test]
fn scenes(rt: HostRuntime) -> Result<(), Fail> {
    let scenes = [
        ("an element is filled", AN_ELEMENT_IS_FILLED),
        ("a text is filled", A_TEXT_IS_FILLED),
        ("units are replaced", UNITS_ARE_REPLACED),
        ("all data is set", ALL_DATA_IS_SET),
        ("a text is split", A_TEXT_IS_SPLIT),
        ("texts are joined", TEXTS_ARE_JOINED),
    ];
    played(&rt, rt.alloc(), SMALL_WORLD, &scenes)
}
