//! A node of the store, and its links to others.
ghost use Rattle.std.specs.Prelude.{◌≡◌};
ghost use Rattle.dom_links.specs.LinkSteps.{alone_node};

use crate::place::Link;

/// A value with its links. They take 48 bytes besides the value.
///
/// The fields that a walk reads are first: the links to the parent, the next sibling and the first child, and the beginning of the value.
#[derive(Drop)]
pub struct Node<T> {
    pub(crate) parent: Link,
    pub(crate) next: Link,
    pub(crate) first: Link,
    pub(crate) value: T,
    pub(crate) prev: Link,
    pub(crate) last: Link,
    pub(crate) slot: u32,
    pub(crate) count: u32,
}

/// Returns a node without links.
pub(crate) fn alone<T>(slot: u32, value: T) -> Node<T>
    ensures { result ≡ alone_node slot value }
{
    Node {
        parent: Link::none(),
        next: Link::none(),
        first: Link::none(),
        value,
        prev: Link::none(),
        last: Link::none(),
        slot,
        count: 0,
    }
}

/// Returns the value of a node, and discards its links.
pub(crate) fn value_of<T>(node: Node<T>) -> T
    ensures { result ≡ node.value }
{
    let Node {
        parent: _,
        next: _,
        first: _,
        value,
        prev: _,
        last: _,
        slot: _,
        count: _,
    } = node;
    value
}
