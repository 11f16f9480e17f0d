//! The contents of a live range, which are deleted, extracted and cloned. After a call that is out of memory, the test continues in the world
//! that it left.

ghost use Rattle.std.specs.Option.{IsSome};
ghost use Rattle.dom_ranges.specs.Tables.{range_in};
ghost use Rattle.dom_edit.specs.Whole.{IsWhole};

use crate::facts::{Fact, NEW, OLDER};
use crate::scenes::{Call, New, Row, When, played};
use crate::small_world::SMALL_WORLD;
use dom_content::{clone_contents, delete_contents, extract};
use dom_edit::{Refusal, World};
use dom_point::{Point, checked_point, order};
use dom_ranges::RangeId;
use dom_tree::NodeId;
use std::alloc::{AllocError, Global};
use std::cmp::Ordering;
use std::process::Abort;
use std::test::Fail;

// Makes a live range between two points of one tree.
fn range_made(
    rt: &impl Abort,
    world: &mut World,
    start: Point,
    end: Point,
) -> Result<RangeId, AllocError>
    requires { IsWhole world.old }
    ensures { IsWhole world.new }
{
    assert!(rt; world.tree.holds(start.node));
    assert!(rt; world.tree.holds(end.node));
    assert!(rt; checked_point(&world.tree, start.node, start.offset).is_ok());
    assert!(rt; checked_point(&world.tree, end.node, end.offset).is_ok());
    assert!(rt; world.tree.root(start.node) == world.tree.root(end.node));
    assert!(rt; order(&world.tree, start, end) != Ordering::Greater);
    assert!(rt; world.ranges.made() < 4294967295);
    world.ranges.make(&world.tree, start, end)
}

// Returns the point after the first unit of a Text.
fn behind_the_first_unit(text: u32) -> Point {
    Point {
        node: NodeId::new(text),
        offset: 1,
    }
}

/// Makes live range 0, from after the first unit of one Text to after the first of another.
pub(crate) fn select(
    rt: &impl Abort,
    world: &mut World,
    first: u32,
    last: u32,
) -> Result<(), Refusal>
    requires { IsWhole world.old }
    ensures { IsWhole world.new }
{
    let (start, end) = (behind_the_first_unit(first), behind_the_first_unit(last));
    let range = range_made(rt, world, start, end)?;
    assert_eq!(rt; range.number(), 0);
    Ok(())
}

/// Returns live range 0, and asserts that it exists.
pub(crate) fn selected(rt: &impl Abort, world: &World) -> RangeId
    ensures { IsSome (range_in world.now.ranges result) }
{
    let range = RangeId::new(0);
    assert!(rt; world.ranges.holds(range));
    range
}

/// Deletes the contents of live range 0.
pub(crate) fn delete(rt: &impl Abort, world: &mut World, alloc: Global) -> Result<(), Refusal>
    requires { IsWhole world.old }
    ensures { IsWhole world.new }
{
    let range = selected(rt, world);
    Ok(delete_contents(world, alloc, range)?)
}

// Deletes the contents of the range. Both ends are at their place then.
const CONTENTS_ARE_DELETED: &[Row] = &[
    Row::Do(Call::Select(2, 5)),
    Row::Try(Call::Delete),
    Row::Then(When::Refused, &[Fact::Held(13)]),
    Row::Again(Call::Delete),
    Row::Then(
        When::Always,
        &[
            Fact::Children(1, &[2, 5]),
            Fact::Data(2, "a"),
            Fact::Data(5, "f"),
            Fact::Children(3, &[4]),
            Fact::Roots(&[3]),
            Fact::Ends(1, 1),
        ],
    ),
];

/// Extracts the contents of live range 0 into a new fragment.
pub(crate) fn extracted(
    rt: &impl Abort,
    world: &mut World,
    alloc: Global,
) -> Result<NodeId, Refusal>
    requires { IsWhole world.old }
    ensures { IsWhole world.new }
{
    let range = selected(rt, world);
    assert!(rt; world.tree.made() < 1000);
    assert!(rt; world.tree.live() < 1000);
    extract(world, alloc, range)
}

// Extracts the contents of the range into fragment 13.
const CONTENTS_ARE_EXTRACTED: &[Row] = &[
    Row::Do(Call::Select(2, 5)),
    Row::Try(Call::New(New::Extract)),
    Row::Then(
        When::Granted,
        &[
            Fact::Answered(13),
            Fact::Children(13, &[14, 3, 15]),
            Fact::Data(14, "b"),
            Fact::Data(15, "e"),
        ],
    ),
    Row::Then(When::Refused, &[Fact::Held(13)]),
    Row::Again(Call::New(New::Extract)),
    Row::Then(
        When::Always,
        &[
            Fact::Roots(&[NEW]),
            Fact::Children(1, &[2, 5]),
            Fact::Data(2, "a"),
            Fact::Data(5, "f"),
            Fact::Ends(1, 1),
        ],
    ),
];

/// Clones the contents of live range 0 into a new fragment.
pub(crate) fn contents_copied(
    rt: &impl Abort,
    world: &mut World,
    alloc: Global,
) -> Result<NodeId, Refusal>
    requires { IsWhole world.old }
    ensures { IsWhole world.new }
{
    let range = selected(rt, world);
    assert!(rt; world.tree.made() < 1000);
    assert!(rt; world.tree.live() < 1000);
    clone_contents(world, alloc, range)
}

// Clones the contents of the range into a fragment. The clones have the numbers after it.
const CONTENTS_ARE_COPIED: &[Row] = &[
    Row::Do(Call::Select(2, 5)),
    Row::Try(Call::New(New::CloneContents)),
    Row::Then(When::Granted, &[Fact::Answered(13)]),
    Row::Then(When::Refused, &[Fact::Held(13)]),
    Row::Again(Call::New(New::CloneContents)),
    Row::Then(
        When::Always,
        &[
            Fact::Roots(&[NEW]),
            Fact::Children(NEW, &[NEW + 1, NEW + 2, NEW + 4]),
            Fact::Children(NEW + 2, &[NEW + 3]),
            Fact::Data(NEW + 1, "b"),
            Fact::Data(NEW + 3, "cd"),
            Fact::Data(NEW + 4, "e"),
            Fact::Children(1, &[2, 3, 5]),
            Fact::Children(3, &[4]),
            Fact::Data(2, "ab"),
            Fact::Data(5, "ef"),
        ],
    ),
];

// Clones and extracts the contents from inside element 3 to Text 5. The state after each refused allocation is whole, and the numbers show whether
// there was one. Each fragment has a clone of element 3 with the end of Text 4 in it, and the beginning of Text 5. The element's clone first has a
// fragment of its own, which is empty in the end.
const CONTENTS_THAT_BEGIN_INSIDE_AN_ELEMENT: &[Row] = &[
    Row::Do(Call::Select(4, 5)),
    Row::Do(Call::New(New::CloneContents)),
    Row::Then(When::Always, &[Fact::Held(13)]),
    Row::Do(Call::New(New::Extract)),
    Row::Then(When::Always, &[Fact::Held(13), Fact::Roots(&[OLDER, NEW])]),
    Row::Then(
        When::Made(23),
        &[
            Fact::Children(OLDER, &[OLDER + 1, OLDER + 4]),
            Fact::Children(OLDER + 1, &[OLDER + 3]),
            Fact::Data(OLDER + 3, "d"),
            Fact::Data(OLDER + 4, "e"),
            Fact::Roots(&[OLDER + 2]),
            Fact::Children(NEW, &[NEW + 1, NEW + 4]),
            Fact::Children(NEW + 1, &[NEW + 3]),
            Fact::Data(NEW + 3, "d"),
            Fact::Data(NEW + 4, "e"),
            Fact::Roots(&[NEW + 2]),
        ],
    ),
    Row::Then(
        When::Always,
        &[
            Fact::Children(1, &[2, 3, 5]),
            Fact::Children(3, &[4]),
            Fact::Data(4, "c"),
            Fact::Data(5, "f"),
            Fact::Ends(2, 2),
        ],
    ),
];

// Clones and extracts the contents from Text 2 to inside element 3. Each fragment has the end of Text 2, and a clone of element 3 with the beginning
// of Text 4.
const CONTENTS_THAT_END_INSIDE_AN_ELEMENT: &[Row] = &[
    Row::Do(Call::Select(2, 4)),
    Row::Do(Call::New(New::CloneContents)),
    Row::Then(When::Always, &[Fact::Held(13)]),
    Row::Do(Call::New(New::Extract)),
    Row::Then(When::Always, &[Fact::Held(13), Fact::Roots(&[OLDER, NEW])]),
    Row::Then(
        When::Made(23),
        &[
            Fact::Children(OLDER, &[OLDER + 1, OLDER + 2]),
            Fact::Children(OLDER + 2, &[OLDER + 4]),
            Fact::Data(OLDER + 1, "b"),
            Fact::Data(OLDER + 4, "c"),
            Fact::Roots(&[OLDER + 3]),
            Fact::Children(NEW, &[NEW + 1, NEW + 2]),
            Fact::Children(NEW + 2, &[NEW + 4]),
            Fact::Data(NEW + 1, "b"),
            Fact::Data(NEW + 4, "c"),
            Fact::Roots(&[NEW + 3]),
        ],
    ),
    Row::Then(
        When::Always,
        &[
            Fact::Children(1, &[2, 3, 5]),
            Fact::Children(3, &[4]),
            Fact::Data(2, "a"),
            Fact::Data(4, "d"),
            Fact::Ends(1, 1),
        ],
    ),
];

#[test]
fn scenes(rt: HostRuntime) -> Result<(), Fail> {
    let scenes = [
        ("contents are deleted", CONTENTS_ARE_DELETED),
        ("contents are extracted", CONTENTS_ARE_EXTRACTED),
        ("contents are copied", CONTENTS_ARE_COPIED),
        (
            "contents that begin inside an element",
            CONTENTS_THAT_BEGIN_INSIDE_AN_ELEMENT,
        ),
        (
            "contents that end inside an element",
            CONTENTS_THAT_END_INSIDE_AN_ELEMENT,
        ),
    ];
    played(&rt, rt.alloc(), SMALL_WORLD, &scenes)
}
