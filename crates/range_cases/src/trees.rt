//! The trees of tests of ranges: elements, and Texts of given lengths.

ghost use Rattle.std.specs.Prelude.{◌≡◌};

use dom_kinds::{Kind, Label};
use dom_point::Point;
use dom_tree::{Body, NodeId, Tree};
use std::alloc::{AllocError, Global};
use tree_steps::{made, put};

// A node's data, as its number of units.
#[derive(Drop)]
pub(crate) struct Units(usize);

impl Body for Units {
    ghost length = { λ u. u.0 };

    fn length(&self) -> usize {
        self.0
    }
}

// The kind of a new node, its parent if it is appended to one, and its number of units.
pub(crate) type Grown = (Kind, Option<u32>, usize);

// Makes a node, and returns whether its number is the expected one.
pub(crate) fn grow(tree: &mut Tree<Units>, due: u32, grown: &Grown) -> Result<bool, AllocError> {
    let (kind, parent, units) = *grown;
    let id = made(tree, Label::nameless(kind), Units(units), None)?;
    match parent {
        Some(parent) => Ok(id.number() == due && put(tree, NodeId::new(parent), id, None)),
        None => Ok(id.number() == due),
    }
}

// A node and an offset.
pub(crate) type Place = (u32, usize);

pub(crate) fn at(place: Place) -> Point
    ensures { result ≡ record { node = place.0; offset = place.1 } }
{
    Point {
        node: NodeId::new(place.0),
        offset: place.1,
    }
}
