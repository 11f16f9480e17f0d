//! An iterator over the children of a node (DOM Standard, "Trees").

ghost use Rattle.std.specs.Prelude.{◌≡◌, [], Some, MatchOption};
ghost use Rattle.std.specs.Option.{ForSome};
ghost use Rattle.dom_model.specs.PlainLists.Lists.{from_first};
ghost use Rattle.dom_model.specs.Forests.Forest.{HasNode, parent_of, children_of};

use crate::item::Item;
use crate::neighbours::{link_to, number_of, place_of};
use crate::node_id::NodeId;
use crate::tree::Tree;
use dom_links::{Link, Store};
use std::marker::Model;

/// The remaining children of a node, in tree order. It follows the links of the store.
#[derive(Drop)]
pub struct Children<'a, X> {
    links: &'a Store<Item<X>>,
    next: Link,
}

impl<'a, X> Model for Children<'a, X> {
    ghost use Rattle.std.specs.Prelude.{List, ℕ};
    ghost use Rattle.dom_tree.specs.ChildrenFrom.{numbers_from, IsChild};

    ghost Value = { List ℕ };

    ghost view = { λ c. numbers_from c.links.now c.next };

    ghost invariant = { λ c. IsChild c.links.now c.next };
}

impl<'a, X> Iterator for Children<'a, X> {
    ghost use Rattle.std.specs.Iterator.{YieldsFirst, item_count};

    type Item = NodeId;

    ghost next_gives = { YieldsFirst (λ s. s) };

    ghost remaining = { item_count (λ s. s) };

    fn next(&mut self) -> Option<NodeId> {
        let place = self.next.get()?;
        let links = self.links;
        links.state_law();
        self.next = links.next(place);
        Some(number_of(links, place))
    }
}

impl<X> Tree<X> {
    /// Returns the children of a node, in tree order.
    pub fn children(&self, parent: NodeId) -> Children<'_, X>
        requires { HasNode self.now.forest parent }
        ensures { result ≡ children_of self.now.forest parent }
    {
        self.links.state_law();
        let first = self.links.first(place_of(&self.links, &self.table, parent));
        Children {
            links: &self.links,
            next: first,
        }
    }

    /// Returns the children of a node from a given one on; none if no child is given.
    pub fn children_from(&self, parent: NodeId, child: Option<NodeId>) -> Children<'_, X>
        requires { ForSome child (λ c. parent_of self.now.forest c ≡ Some parent) }
        ensures { MatchOption child (result ≡ []) (λ c. result
            ≡ from_first c (children_of self.now.forest parent)) }
    {
        self.links.state_law();
        let from = link_to(&self.links, &self.table, child);
        Children {
            links: &self.links,
            next: from,
        }
    }
}
