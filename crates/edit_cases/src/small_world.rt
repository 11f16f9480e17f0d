//! A small world with observer 0, and the calls that make its nodes.

ghost use Rattle.std.specs.Prelude.{◌≡◌, true};
ghost use Rattle.dom_edit.specs.Whole.{IsWhole};
ghost use Rattle.dom_model.specs.Forests.Nodes.{is_of_kind};

use crate::facts::held;
use crate::scenes::{Call, New, Row};
use dom_edit::{Content, Refusal, World};
use dom_kinds::{Kind, Label};
use dom_observe::{ObserverId, RawOptions, resolve_options};
use dom_tree::NodeId;
use dom_units::Units;
use std::alloc::{AllocError, Global};
use std::process::Abort;

/// Three trees: document 0 has element 1, with Text 2 ("ab"), element 3 with Text 4 ("cd") in it, and Text 5 ("ef"). Element 6 has Text 7 without
/// data, Text 8 ("gh") and Text 9 ("ij"). Fragment 10 has Comment 11 ("kl") and element 12. Observer 0 observes the first two trees.
pub(crate) const SMALL_WORLD: &[Row] = &[
    Row::Do(Call::New(New::Make(Kind::Element, ""))),
    Row::Do(Call::Append(0, 1)),
    Row::Do(Call::New(New::Make(Kind::Text, "ab"))),
    Row::Do(Call::Append(1, 2)),
    Row::Do(Call::New(New::Make(Kind::Element, ""))),
    Row::Do(Call::Append(1, 3)),
    Row::Do(Call::New(New::Make(Kind::Text, "cd"))),
    Row::Do(Call::Append(3, 4)),
    Row::Do(Call::New(New::Make(Kind::Text, "ef"))),
    Row::Do(Call::Append(1, 5)),
    Row::Do(Call::New(New::Make(Kind::Element, ""))),
    Row::Do(Call::New(New::Make(Kind::Text, ""))),
    Row::Do(Call::Append(6, 7)),
    Row::Do(Call::New(New::Make(Kind::Text, "gh"))),
    Row::Do(Call::Append(6, 8)),
    Row::Do(Call::New(New::Make(Kind::Text, "ij"))),
    Row::Do(Call::Append(6, 9)),
    Row::Do(Call::New(New::Make(Kind::DocumentFragment, ""))),
    Row::Do(Call::New(New::Make(Kind::Comment, "kl"))),
    Row::Do(Call::Append(10, 11)),
    Row::Do(Call::New(New::Make(Kind::Element, ""))),
    Row::Do(Call::Append(10, 12)),
    Row::Do(Call::MakeObserver),
    Row::Do(Call::Watch(0)),
    Row::Do(Call::Watch(6)),
];

/// Returns the node with a number, and asserts that it exists and is of a kind.
pub(crate) fn of_kind(rt: &impl Abort, world: &World, number: u32, kind: Kind) -> NodeId
    ensures { is_of_kind kind world.now.tree.forest result ≡ true }
{
    let node = held(rt, world, number);
    assert!(rt; world.tree.is_of_kind(node, kind));
    node
}

/// Makes a root of a kind in document 0.
pub(crate) fn make(
    rt: &impl Abort,
    world: &mut World,
    kind: Kind,
    content: Content,
) -> Result<NodeId, Refusal>
    requires { IsWhole world.old }
    ensures { IsWhole world.new }
{
    let document = of_kind(rt, world, 0, Kind::Document);
    assert!(rt; world.tree.made() < 4294967295);
    Ok(world.make(Label::nameless(kind), content, Some(document))?)
}

/// Makes a root of a kind with data in document 0.
pub(crate) fn make_with(
    rt: &impl Abort,
    world: &mut World,
    alloc: Global,
    kind: Kind,
    text: &str,
) -> Result<NodeId, Refusal>
    requires { IsWhole world.old }
    ensures { IsWhole world.new }
{
    let text = Units::from_str(alloc, text)?;
    let content = Content::of_text(alloc, text)?;
    make(rt, world, kind, content)
}

/// Makes a document.
pub(crate) fn make_document(rt: &impl Abort, world: &mut World) -> Result<NodeId, Refusal>
    requires { IsWhole world.old }
    ensures { IsWhole world.new }
{
    assert!(rt; world.tree.made() < 4294967295);
    let label = Label::nameless(Kind::Document);
    Ok(world.make(label, Content::nothing(), None)?)
}

/// Makes observer 0.
pub(crate) fn make_observer(rt: &impl Abort, world: &mut World) -> Result<(), Refusal>
    requires { IsWhole world.old }
    ensures { IsWhole world.new }
{
    assert!(rt; world.observers.made() < 4294967295);
    let observer = world.observers.make()?;
    assert_eq!(rt; observer.number(), 0);
    Ok(())
}

// Returns options that observe all changes of a node and its descendants.
fn all_below() -> RawOptions {
    RawOptions {
        child_list: Some(true),
        attributes: Some(true),
        character_data: Some(true),
        subtree: Some(true),
        attribute_old_value: Some(true),
        character_data_old_value: Some(true),
        attribute_filter: None,
    }
}

/// Registers observer 0 for all changes of a node and its descendants.
pub(crate) fn watch(rt: &impl Abort, world: &mut World, node: u32) -> Result<(), AllocError>
    requires { IsWhole world.old }
    ensures { IsWhole world.new }
{
    let observer = ObserverId::new(0);
    let node = held(rt, world, node);
    assert!(rt; world.observers.holds(observer));
    match resolve_options(all_below()) {
        Ok(options) => world.observers.observe(observer, node, options),
        Err(_) => {
            assert!(rt; false, "these options are in order");
            Ok(())
        }
    }
}
