//! Attributes that are set, removed and toggled. A call that is out of memory leaves them unchanged.

ghost use Rattle.dom_edit.specs.Whole.{IsWhole};

use crate::facts::Fact;
use crate::scenes::{Call, Change, Row, When, played};
use crate::small_world::{SMALL_WORLD, of_kind};
use dom_data::{remove_attribute, set_attribute, toggle_attribute};
use dom_edit::{Refusal, World};
use dom_kinds::Kind;
use dom_units::Units;
use std::alloc::Global;
use std::process::Abort;
use std::test::Fail;

/// Sets an attribute of an element.
pub(crate) fn set(
    rt: &impl Abort,
    world: &mut World,
    alloc: Global,
    node: u32,
    key: &str,
    value: &str,
) -> Result<(), Refusal>
    requires { IsWhole world.old }
    ensures { IsWhole world.new }
{
    let key = String::from_str(alloc, key)?;
    let value = Units::from_str(alloc, value)?;
    let node = of_kind(rt, world, node, Kind::Element);
    Ok(set_attribute(world, alloc, node, key, value)?)
}

/// Removes an attribute of an element.
pub(crate) fn unset(rt: &impl Abort, world: &mut World, node: u32, key: &str) -> Result<(), Refusal>
    requires { IsWhole world.old }
    ensures { IsWhole world.new }
{
    let node = of_kind(rt, world, node, Kind::Element);
    Ok(remove_attribute(world, node, key)?)
}

/// Toggles an attribute of an element, and asserts whether it exists then.
pub(crate) fn toggle(
    rt: &impl Abort,
    world: &mut World,
    alloc: Global,
    node: u32,
    key: &str,
    on: bool,
) -> Result<(), Refusal>
    requires { IsWhole world.old }
    ensures { IsWhole world.new }
{
    let key = String::from_str(alloc, key)?;
    let node = of_kind(rt, world, node, Kind::Element);
    let is_there = toggle_attribute(world, alloc, node, key, None)?;
    assert_eq!(rt; is_there, on);
    Ok(())
}

const SET: Call = Call::Change(1, Change::SetAttribute("id", "mn"));

const SET_ANEW: Call = Call::Change(1, Change::SetAttribute("id", "op"));

// Sets an attribute, and sets it again to another value.
const AN_ATTRIBUTE_IS_SET: &[Row] = &[
    Row::Try(SET),
    Row::Then(When::Refused, &[Fact::Held(13), Fact::Attributes(1, 0)]),
    Row::Again(SET),
    Row::Then(
        When::Always,
        &[Fact::Attributes(1, 1), Fact::Attribute(1, "id", "mn")],
    ),
    Row::Try(SET_ANEW),
    Row::Then(When::Refused, &[Fact::Attribute(1, "id", "mn")]),
    Row::Again(SET_ANEW),
    Row::Then(
        When::Always,
        &[Fact::Attributes(1, 1), Fact::Attribute(1, "id", "op")],
    ),
];

const REMOVE: Call = Call::Change(1, Change::RemoveAttribute("id"));

// Sets an attribute, and removes it.
const AN_ATTRIBUTE_IS_REMOVED: &[Row] = &[
    Row::Do(SET),
    Row::Try(REMOVE),
    Row::Then(
        When::Refused,
        &[Fact::Held(13), Fact::Attribute(1, "id", "mn")],
    ),
    Row::Again(REMOVE),
    Row::Then(When::Always, &[Fact::Attributes(1, 0)]),
];

const ADD_BY_TOGGLING: Call = Call::Change(1, Change::ToggleAttribute("id", true));

const REMOVE_BY_TOGGLING: Call = Call::Change(1, Change::ToggleAttribute("id", false));

// Toggles an attribute twice: it is added with the empty value, and removed.
const AN_ATTRIBUTE_IS_TOGGLED: &[Row] = &[
    Row::Try(ADD_BY_TOGGLING),
    Row::Then(When::Refused, &[Fact::Attributes(1, 0)]),
    Row::Again(ADD_BY_TOGGLING),
    Row::Then(
        When::Always,
        &[Fact::Attributes(1, 1), Fact::Attribute(1, "id", "")],
    ),
    Row::Try(REMOVE_BY_TOGGLING),
    Row::Then(When::Refused, &[Fact::Attribute(1, "id", "")]),
    Row::Again(REMOVE_BY_TOGGLING),
    Row::Then(When::Always, &[Fact::Attributes(1, 0)]),
];

#[test]
fn scenes(rt: HostRuntime) -> Result<(), Fail> {
    let scenes = [
        ("an attribute is set", AN_ATTRIBUTE_IS_SET),
        ("an attribute is removed", AN_ATTRIBUTE_IS_REMOVED),
        ("an attribute is toggled", AN_ATTRIBUTE_IS_TOGGLED),
    ];
    played(&rt, rt.alloc(), SMALL_WORLD, &scenes)
}
