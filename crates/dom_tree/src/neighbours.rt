//! Steps from place to place along the store's links.

ghost use Rattle.std.specs.Prelude.{◌≡◌, Some, option_map};
ghost use Rattle.std.specs.Option.{ForSome};
ghost use Rattle.dom_model.specs.PlainLists.Lists.{head_of, last_of};
ghost use Rattle.dom_links.specs.Placed.{parent_at, children_at, next_at, previous_at, IsPlaced};
ghost use Rattle.dom_tree.specs.SpelledForest.{slot_in, slot_for};
ghost use Rattle.dom_tree.specs.Places.{slots_in, called, Leads, ArePlaced, IsListed};

use crate::item::Item;
use crate::node_id::NodeId;
use crate::node_table::NodeTable;
use dom_links::{Link, Place, Store};

/// How many siblings a query walks over before it uses or makes blocks.
pub(crate) const NEAR: usize = 64;

/// Returns the place of a number, if the table has one.
pub(crate) fn place_at<X>(links: &Store<Item<X>>, table: &NodeTable, id: NodeId) -> Option<Place>
    requires { ArePlaced links.now table.now.items }
    ensures { Leads links.now result (slot_in (slots_in links.now table.now.items) id) }
{
    let _ = links;
    table.get(id.number() as usize)
}

/// Returns the place of a number that the table has.
pub(crate) fn place_of<X>(links: &Store<Item<X>>, table: &NodeTable, id: NodeId) -> Place
    requires { IsListed links.now table.now.items id }
    ensures { Leads links.now (Some result) (slot_in (slots_in links.now table.now.items) id) }
{
    let _ = links;
    table.get(id.number() as usize).unwrap()
}

/// Returns a link to the place of a number; none for none.
pub(crate) fn link_to<X>(links: &Store<Item<X>>, table: &NodeTable, id: Option<NodeId>) -> Link
    requires { ForSome id (IsListed links.now table.now.items) }
    ensures { Leads links.now result (slot_for (slots_in links.now table.now.items) id) }
{
    match id {
        Some(id) => Link::to(place_of(links, table, id)),
        None => Link::none(),
    }
}

/// Returns the number of the node at a place.
pub(crate) fn number_of<X>(links: &Store<Item<X>>, place: Place) -> NodeId
    requires { IsPlaced links.now place }
    ensures { result ≡ called links.now place }
{
    links.value(place).number
}

/// Returns the number of the node that a link leads to, if any.
pub(crate) fn named<X>(links: &Store<Item<X>>, link: Link) -> Option<NodeId>
    requires { ForSome link (IsPlaced links.now) }
    ensures { result ≡ option_map (called links.now) link }
{
    match link.get() {
        Some(place) => Some(number_of(links, place)),
        None => None,
    }
}

/// Returns the place of the parent.
pub(crate) fn parent<X>(links: &Store<Item<X>>, place: Place) -> Option<Place>
    requires { IsPlaced links.now place }
    ensures { Leads links.now result (parent_at links.now place) }
{
    links.parent(place).get()
}

/// Returns the place of the first child.
pub(crate) fn first<X>(links: &Store<Item<X>>, place: Place) -> Option<Place>
    requires { IsPlaced links.now place }
    ensures { Leads links.now result (head_of (children_at links.now place)) }
{
    links.first(place).get()
}

/// Returns the place of the last child.
pub(crate) fn last<X>(links: &Store<Item<X>>, place: Place) -> Option<Place>
    requires { IsPlaced links.now place }
    ensures { Leads links.now result (last_of (children_at links.now place)) }
{
    links.last(place).get()
}

/// Returns the place of the next sibling.
pub(crate) fn next<X>(links: &Store<Item<X>>, place: Place) -> Option<Place>
    requires { IsPlaced links.now place }
    ensures { Leads links.now result (next_at links.now place) }
{
    links.next(place).get()
}

/// Returns the place of the previous sibling.
pub(crate) fn prev<X>(links: &Store<Item<X>>, place: Place) -> Option<Place>
    requires { IsPlaced links.now place }
    ensures { Leads links.now result (previous_at links.now place) }
{
    links.prev(place).get()
}
