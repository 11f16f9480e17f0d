//! A borrowed handle to a node, with steps to its neighbours (DOM Standard, "Trees").

ghost use Rattle.std.specs.Prelude.{◌≡◌, Some, IfSome, true};
ghost use Rattle.std.specs.Option.{ForSome};
ghost use Rattle.dom_model.specs.PlainLists.Lists.{among, after, head_of, last_of};
ghost use Rattle.dom_model.specs.Forests.Forest.{HasNode, entry_in, parent_of, children_of, next_of, previous_of, ancestors, inclusive_descendants, IsForest};

use crate::item::Item;
use crate::neighbours::{self, number_of, place_of};
use crate::node_id::NodeId;
use crate::node_table::NodeTable;
use crate::tree::Tree;
use dom_kinds::Label;
use dom_links::{Place, Store};
use std::marker::Model;

/// A borrowed node of a tree. Its number was looked up once; each step to a neighbour, parent or child needs no further look-up.
#[derive(Drop)]
pub struct At<'a, X> {
    pub(crate) links: &'a Store<Item<X>>,
    pub(crate) table: &'a NodeTable,
    pub(crate) place: Place,
}

impl<'a, X> Model for At<'a, X> {
    ghost use Rattle.std.specs.Prelude.{length};
    ghost use Rattle.dom_tree.specs.SpelledForest.{shown};
    ghost use Rattle.dom_tree.specs.Slots.{nodes_alone};
    ghost use Rattle.dom_tree.specs.Places.{slots_in, called};
    ghost use Rattle.dom_tree.specs.Spots.{Spot, spot_code, IsSpot};

    ghost Value = { Spot X };

    ghost coded = { spot_code X.code };

    ghost view = { λ a. record {
      tree = record { forest = shown (nodes_alone a.links.now.arena) (slots_in a.links.now a.table.now.items); made = length (slots_in a.links.now a.table.now.items) };
      node = called a.links.now a.place;
    } };

    ghost invariant = { λ a. IsSpot a.links.now a.table.now.items a.place };
}

impl<X> Tree<X> {
    /// Returns a handle to a node.
    pub fn at(&self, id: NodeId) -> At<'_, X>
        requires { HasNode self.now.forest id }
        ensures tree { result.tree ≡ self.now }
        ensures node { result.node ≡ id }
    {
        At {
            links: &self.links,
            table: &self.table,
            place: place_of(&self.links, &self.table, id),
        }
    }
}

impl<'a, X> At<'a, X> {
    ghost use Rattle.dom_tree.specs.Spots.{node_at};

    /// States a law, and does nothing: its contract holds for the tree and the node at any time.
    pub fn state_law(&self)
        ensures forest { IsForest self.now.tree }
        ensures there { HasNode self.now.tree.forest self.now.node }
    {
        let _ = &self.place;
    }

    /// Returns the node's number.
    pub fn number(&self) -> NodeId
        ensures { result ≡ self.now.node }
    {
        number_of(self.links, self.place)
    }

    /// Returns the node's label.
    pub fn label(&self) -> &Label
        ensures { IfSome (entry_in self.now.tree.forest self.now.node) (λ e. result.now
            ≡ e.value.label) }
    {
        let item = self.links.value(self.place);
        &item.label
    }

    /// Returns the node document (DOM Standard, "Interface Node").
    pub fn document(&self) -> NodeId
        ensures { IfSome (entry_in self.now.tree.forest self.now.node) (λ e. result
            ≡ e.value.document) }
    {
        let kept = self.links.value(self.place);
        kept.document
    }

    /// Returns the parent; none for a root.
    pub fn parent(&self) -> Option<At<'a, X>>
        ensures tree { ForSome result (λ a. a.tree ≡ self.now.tree) }
        ensures node { node_at result ≡ parent_of self.now.tree.forest self.now.node }
    {
        self.links.state_law();
        let place = neighbours::parent(self.links, self.place)?;
        Some(At {
            links: self.links,
            table: self.table,
            place,
        })
    }

    /// Returns the first child.
    pub fn first(&self) -> Option<At<'a, X>>
        ensures tree { ForSome result (λ a. a.tree ≡ self.now.tree) }
        ensures node { node_at result ≡ head_of (children_of self.now.tree.forest self.now.node) }
    {
        self.links.state_law();
        let place = neighbours::first(self.links, self.place)?;
        Some(At {
            links: self.links,
            table: self.table,
            place,
        })
    }

    /// Returns the last child.
    pub fn last(&self) -> Option<At<'a, X>>
        ensures tree { ForSome result (λ a. a.tree ≡ self.now.tree) }
        ensures node { node_at result ≡ last_of (children_of self.now.tree.forest self.now.node) }
    {
        self.links.state_law();
        let place = neighbours::last(self.links, self.place)?;
        Some(At {
            links: self.links,
            table: self.table,
            place,
        })
    }

    /// Returns the next sibling; none for a root.
    pub fn next(&self) -> Option<At<'a, X>>
        ensures tree { ForSome result (λ a. a.tree ≡ self.now.tree) }
        ensures node { node_at result ≡ next_of self.now.tree.forest self.now.node }
    {
        self.links.state_law();
        let place = neighbours::next(self.links, self.place)?;
        Some(At {
            links: self.links,
            table: self.table,
            place,
        })
    }

    /// Returns the previous sibling; none for a root.
    pub fn prev(&self) -> Option<At<'a, X>>
        ensures tree { ForSome result (λ a. a.tree ≡ self.now.tree) }
        ensures node { node_at result ≡ previous_of self.now.tree.forest self.now.node }
    {
        self.links.state_law();
        let place = neighbours::prev(self.links, self.place)?;
        Some(At {
            links: self.links,
            table: self.table,
            place,
        })
    }

    /// Returns the next node in tree order among the inclusive descendants of `top`.
    pub fn next_inside(&self, top: NodeId) -> Option<At<'a, X>>
        requires { among top (ancestors self.now.node self.now.tree.forest) ≡ true }
        ensures tree { ForSome result (λ a. a.tree ≡ self.now.tree) }
        ensures node { node_at result ≡ after self.now.node
            (inclusive_descendants self.now.tree.forest top) }
    {
        self.state_law();
        self.links.state_law();
        let links = self.links;
        let table = self.table;
        if let Some(place) = neighbours::first(links, self.place) {
            return Some(At {
                links,
                table,
                place,
            });
        }
        let mut here = self.place;
        while number_of(links, here) != top {
            if let Some(place) = neighbours::next(links, here) {
                return Some(At {
                    links,
                    table,
                    place,
                });
            }
            here = neighbours::parent(links, here).unwrap();
        }
        None
    }

    /// Returns the last inclusive descendant in tree order.
    pub fn last_inside(&self) -> At<'a, X>
        ensures tree { result.tree ≡ self.now.tree }
        ensures node { Some result.node ≡ last_of (inclusive_descendants self.now.tree.forest
            self.now.node) }
    {
        self.state_law();
        self.links.state_law();
        let links = self.links;
        let mut place = self.place;
        while let Some(last) = neighbours::last(links, place) {
            place = last;
        }
        At {
            links,
            table: self.table,
            place,
        }
    }
}
