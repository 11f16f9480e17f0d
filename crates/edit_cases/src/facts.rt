//! Expected facts of a world, as rows of a table. One function checks them, with each check once.

ghost use Rattle.dom_model.specs.Forests.Forest.{HasNode};

use dom_clone::is_equal;
use dom_edit::{Content, World};
use dom_point::Point;
use dom_ranges::RangeId;
use dom_tree::NodeId;
use std::process::Abort;

/// The first number that stands for the last new node: `NEW` is that node, and `NEW + 3` the third number after it.
pub(crate) const NEW: u32 = 1_000;

/// The first number that stands for the new node before the last one.
pub(crate) const OLDER: u32 = 2_000;

/// The outcome of the calls of a scene: whether the last tried call was refused, and the last two new nodes.
#[derive(Clone, Copy)]
pub struct Course {
    pub refused: bool,
    pub new: u32,
    pub older: u32,
}

impl Course {
    /// Stores a new node.
    pub(crate) fn answers(&mut self, node: u32) {
        self.older = self.new;
        self.new = node;
    }

    // Returns the number of the node that a fact names.
    fn number(self, named: u32) -> u32 {
        if named < NEW {
            named
        } else if named < OLDER {
            self.new.saturating_add(named - NEW)
        } else {
            self.older.saturating_add(named - OLDER)
        }
    }
}

/// An expected fact of a world. A node is named by its number, or from `NEW` on relative to a new node.
#[derive(Clone, Copy)]
pub enum Fact {
    /// All numbers below this one are numbers of nodes.
    Held(u32),
    /// How many numbers were given is one of these.
    Made(&'static [u64]),
    /// How many nodes there are.
    Live(u64),
    /// The last call returned the node with this number.
    Answered(u32),
    /// The children of a node, in order.
    Children(u32, &'static [u32]),
    /// None of these nodes has a parent.
    Roots(&'static [u32]),
    /// A node is the next sibling of another.
    Behind(u32, u32),
    /// The node document of a node.
    Document(u32, u32),
    /// The data of a node, with units below 128.
    Data(u32, &'static str),
    /// The number of attributes of a node.
    Attributes(u32, usize),
    /// An attribute of a node, and its value.
    Attribute(u32, &'static str, &'static str),
    /// Both nodes are equal.
    Equal(u32, u32),
    /// Both ends of live range 0 are in element 1, at these offsets.
    Ends(usize, usize),
}

/// Returns the node with a number, and asserts that it exists.
pub(crate) fn held(rt: &impl Abort, world: &World, number: u32) -> NodeId
    ensures { HasNode world.now.tree.forest result }
{
    let node = NodeId::new(number);
    assert!(rt; world.tree.holds(node));
    node
}

// Returns the data and attributes of a node.
fn body<'a>(rt: &impl Abort, world: &'a World, number: u32) -> &'a Content {
    world.tree.body(held(rt, world, number))
}

// Asserts that all numbers below one are numbers of nodes.
fn expect_held(rt: &impl Abort, world: &World, made: u32) {
    for number in 0..made {
        assert!(rt; world.tree.holds(NodeId::new(number)), "node {number}");
    }
}

// Asserts the children of a node, in order.
fn expect_children(rt: &impl Abort, world: &World, course: Course, parent: u32, numbers: &[u32]) {
    let parent = held(rt, world, course.number(parent));
    assert_eq!(rt; world.tree.count(parent), numbers.len());
    let mut last = None;
    let mut next = world.tree.first(parent);
    for number in numbers {
        let child = held(rt, world, course.number(*number));
        assert_eq!(rt; next, Some(child));
        assert_eq!(rt; world.tree.parent(child), Some(parent));
        assert_eq!(rt; world.tree.prev(child), last);
        last = next;
        next = world.tree.next(child);
    }
    assert_eq!(rt; next, None);
    assert_eq!(rt; world.tree.last(parent), last);
}

// Asserts that none of these nodes has a parent.
fn expect_roots(rt: &impl Abort, world: &World, course: Course, numbers: &[u32]) {
    for number in numbers {
        let node = held(rt, world, course.number(*number));
        assert_eq!(rt; world.tree.parent(node), None);
    }
}

/// Asserts the units of a text, each below 128.
pub(crate) fn expect_units(rt: &impl Abort, units: &[u16], text: &str) {
    assert!(rt; units.iter().copied().eq(text.bytes().map(u16::from)));
}

// Asserts an attribute of a content, and its value.
fn expect_attribute(rt: &impl Abort, content: &Content, key: &str, value: &str) {
    match content.attribute(key) {
        Some(found) => expect_units(rt, found.units(), value),
        None => assert!(rt; false, "no attribute {key}"),
    }
}

// Returns the offsets of both ends of live range 0, and asserts that they are in element 1.
fn ends(rt: &impl Abort, world: &World) -> (usize, usize) {
    let (node, range) = (NodeId::new(1), RangeId::new(0));
    assert!(rt; world.ranges.holds(range));
    let (start, end) = world.ranges.ends(range);
    assert!(rt; start.node == node && end.node == node);
    (start.offset, end.offset)
}

// Asserts a fact.
fn expect(rt: &impl Abort, world: &World, course: Course, fact: &Fact) {
    match *fact {
        Fact::Held(made) => expect_held(rt, world, made),
        Fact::Made(some) => assert!(rt; some.contains(&world.tree.made())),
        Fact::Live(live) => assert_eq!(rt; world.tree.live(), live),
        Fact::Answered(node) => assert_eq!(rt; course.new, node),
        Fact::Children(parent, numbers) => expect_children(rt, world, course, parent, numbers),
        Fact::Roots(numbers) => expect_roots(rt, world, course, numbers),
        Fact::Behind(node, other) => {
            let node = held(rt, world, course.number(node));
            assert_eq!(rt; world.tree.prev(node), Some(NodeId::new(other)));
        }
        Fact::Document(node, document) => {
            let node = held(rt, world, course.number(node));
            assert_eq!(rt; world.tree.document_of(node), NodeId::new(document));
        }
        Fact::Data(node, text) => {
            expect_units(rt, body(rt, world, course.number(node)).text(), text);
        }
        Fact::Attributes(node, count) => {
            assert_eq!(rt; body(rt, world, node).attribute_count(), count);
        }
        Fact::Attribute(node, key, value) => {
            expect_attribute(rt, body(rt, world, node), key, value);
        }
        Fact::Equal(node, other) => {
            let other = held(rt, world, course.number(other));
            assert!(rt; is_equal(&world.tree, held(rt, world, node), other));
        }
        Fact::Ends(start, end) => assert_eq!(rt; ends(rt, world), (start, end)),
    }
}

/// Asserts facts in order.
pub(crate) fn expect_all(rt: &impl Abort, world: &World, course: Course, facts: &[Fact]) {
    for fact in facts {
        expect(rt, world, course, fact);
    }
}
