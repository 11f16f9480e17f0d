//! The tree: making and reading nodes, and inserting and removing them.

ghost use Rattle.std.specs.Prelude.{◌≡◌, ◌+◌, ◌<◌, length, Some, None, IsSome, is_some, unwrap_or, IfSome, IfOk, OnOk, OnErr, false};
ghost use Rattle.std.specs.Borrow.{sem};
ghost use Rattle.std.specs.Option.{ForSome};
ghost use Rattle.dom_model.specs.PlainLists.Lists.{among, head_of, last_of};
ghost use Rattle.dom_model.specs.Forests.Forest.{empty, node, beside, size, entry_in, HasNode, parent_of, children_of, next_of, previous_of, ancestors, put, cut, IsForest};
ghost use Rattle.dom_links.specs.Placed.{entry_behind, IsPlaced};
ghost use Rattle.dom_tree.specs.Bodies.{lends_item_body};
ghost use Rattle.dom_tree.specs.PutConditions.{MayStand};

use crate::block_updates::blocked_cut;
use crate::blocks::Blocks;
use crate::index_updates::number_cut;
use crate::insertion::put_at;
use crate::item::Item;
use crate::neighbours::{link_to, named, place_of};
use crate::node_id::NodeId;
use crate::node_table::NodeTable;
use crate::tallies::Tallies;
use crate::tally_updates::tallied_cut;
use dom_kinds::Label;
use dom_links::{Place, Store};
use dom_pages::Pages;
use std::alloc::{AllocError, Global};
use std::marker::Model;

/// A forest of nodes, each a root or a child of one parent. A node keeps its number wherever it is.
///
/// `blocks` are the blocks of long lists of children. `tallies` has the number of elements and of doctypes among the children of each Document.
/// `strays` is set for good once a node document may not be a node of the tree. Until then each node's `owned` is right.
#[derive(Drop)]
pub struct Tree<X> {
    pub(crate) links: Store<Item<X>>,
    pub(crate) table: NodeTable,
    pub(crate) live: u64,
    pub(crate) strays: bool,
    pub(crate) blocks: Blocks,
    pub(crate) tallies: Tallies,
}

impl<X> Model for Tree<X> {
    ghost use Rattle.std.specs.Prelude.{length};
    ghost use Rattle.dom_model.specs.Forests.Forest.{Grove};
    ghost use Rattle.dom_model.specs.Forests.ForestCode.{grove_code};
    ghost use Rattle.dom_tree.specs.SpelledForest.{shown};
    ghost use Rattle.dom_tree.specs.Slots.{nodes_alone};
    ghost use Rattle.dom_tree.specs.Places.{slots_in, IsSeated};

    ghost Value = { Grove X };

    ghost coded = { grove_code X.code };

    ghost view = { λ t. record {
      forest = shown (nodes_alone t.links.arena) (slots_in t.links t.table.items);
      made = length (slots_in t.links t.table.items);
    } };

    ghost invariant = { λ t. IsSeated t.links t.table.items t.live t.strays t.blocks t.tallies };
}

// Borrows the body of the node at a place mutably.
fn body_in<X>(links: &mut Store<Item<X>>, place: Place) -> &mut X
    requires { IsPlaced links.old place }
    ensures* writes_back { sem 𝓛 (lends_item_body X.row links.entry place result) }
    ensures value { IfSome (entry_behind links.old place) (λ e. result.now ≡ e.value.node.body) }
{
    let item = links.value_mut(place);
    &mut item.body
}

impl<X: Drop> Tree<X> {
    /// Makes a root without children. Its node document is the given one, or itself if none is given.
    pub fn make(
        &mut self,
        label: Label,
        body: X,
        document: Option<NodeId>,
    ) -> Result<NodeId, AllocError>
        requires room { self.old.made < 4294967295 }
        ensures number { IfOk result (λ id. id ≡ self.old.made) }
        ensures made { OnOk result (self.new ≡ record {
          forest = beside self.old.forest
              (node (record {
                number = self.old.made;
                document = unwrap_or document self.old.made;
                label = label;
                body = body;
              }) empty empty);
          made = self.old.made + 1;
        }) }
        ensures unchanged { OnErr result (self.new ≡ self.old) }
    {
        self.state_law();
        let id = self.make_alone(label, body)?;
        self.move_to(id, document.unwrap_or(id));
        Ok(id)
    }

    // Makes a root without children that is its own node document.
    fn make_alone(&mut self, label: Label, body: X) -> Result<NodeId, AllocError>
        requires room { self.old.made < 4294967295 }
        ensures number { IfOk result (λ id. id ≡ self.old.made) }
        ensures made { OnOk result (self.new ≡ record {
          forest = beside self.old.forest
              (node (record {
                number = self.old.made;
                document = self.old.made;
                label = label;
                body = body;
              }) empty empty);
          made = self.old.made + 1;
        }) }
        ensures unchanged { OnErr result (self.new ≡ self.old) }
    {
        let kind = label.kind;
        self.table.reserve(1)?;
        self.tallies.reserve(kind)?;
        let id = NodeId::new(self.table.len() as u32);
        let item = Item {
            number: id,
            document: id,
            label,
            body,
            index: 0,
            sure: 0,
            reach: 0,
            owned: 1,
        };
        self.links.state_law();
        let Ok(slot) = self.links.add(item) else {
            return Err(AllocError);
        };
        let place = self.links.place(slot);
        self.table.push_reserved(place);
        self.live += 1;
        self.tallies.start(slot, kind);
        Ok(id)
    }
}

impl<X> Tree<X> {
    ghost use Rattle.dom_tree.specs.Borrows.{lends_body};

    /// Returns a tree without nodes. It takes no memory.
    pub fn new(alloc: Global) -> Tree<X>
        ensures { result ≡ record { forest = empty; made = 0 } }
    {
        Tree {
            links: Store::new(alloc),
            table: Pages::new(alloc),
            live: 0,
            strays: false,
            blocks: Blocks::new(alloc),
            tallies: Tallies::new(alloc),
        }
    }

    /// Returns how many nodes were ever made.
    pub fn made(&self) -> u64
        ensures { result ≡ self.now.made }
    {
        self.table.len() as u64
    }

    /// Returns the number of nodes.
    pub fn live(&self) -> u64
        ensures { result ≡ size self.now.forest }
    {
        self.live
    }

    /// Returns whether a node exists.
    pub fn holds(&self, id: NodeId) -> bool
        ensures { result ≡ is_some (entry_in self.now.forest id) }
    {
        self.table.get(id.number() as usize).is_some()
    }

    /// States a law, and does nothing: its contract holds for each tree at any time.
    pub fn state_law(&self)
        ensures { IsForest self.now }
    {
        let _ = &self.links;
    }

    /// Returns the label of a node.
    pub fn label(&self, id: NodeId) -> &Label
        requires { HasNode self.now.forest id }
        ensures { IfSome (entry_in self.now.forest id) (λ e. result.now ≡ e.value.label) }
    {
        let item = self.links.value(place_of(&self.links, &self.table, id));
        &item.label
    }

    /// Borrows the data and attributes of a node.
    pub fn body(&self, id: NodeId) -> &X
        requires { HasNode self.now.forest id }
        ensures { IfSome (entry_in self.now.forest id) (λ e. result.now ≡ e.value.body) }
    {
        let item = self.links.value(place_of(&self.links, &self.table, id));
        &item.body
    }

    /// Borrows the data and attributes of a node mutably.
    pub fn body_mut(&mut self, id: NodeId) -> &mut X
        requires { HasNode self.old.forest id }
        ensures* writes_back { sem 𝓛 (lends_body X.row self.entry id result) }
        ensures value { IfSome (entry_in self.old.forest id) (λ e. result.now ≡ e.value.body) }
    {
        let place = place_of(&self.links, &self.table, id);
        body_in(&mut self.links, place)
    }

    /// Returns the node document (DOM Standard, "Interface Node").
    pub fn document_of(&self, id: NodeId) -> NodeId
        requires { HasNode self.now.forest id }
        ensures { IfSome (entry_in self.now.forest id) (λ e. result ≡ e.value.document) }
    {
        let item = self.links.value(place_of(&self.links, &self.table, id));
        item.document
    }

    /// Returns the parent; none for a root.
    pub fn parent(&self, id: NodeId) -> Option<NodeId>
        requires { HasNode self.now.forest id }
        ensures { result ≡ parent_of self.now.forest id }
    {
        let place = place_of(&self.links, &self.table, id);
        self.links.state_law();
        named(&self.links, self.links.parent(place))
    }

    /// Returns the first child.
    pub fn first(&self, id: NodeId) -> Option<NodeId>
        requires { HasNode self.now.forest id }
        ensures { result ≡ head_of (children_of self.now.forest id) }
    {
        let place = place_of(&self.links, &self.table, id);
        self.links.state_law();
        named(&self.links, self.links.first(place))
    }

    /// Returns the last child.
    pub fn last(&self, id: NodeId) -> Option<NodeId>
        requires { HasNode self.now.forest id }
        ensures { result ≡ last_of (children_of self.now.forest id) }
    {
        let place = place_of(&self.links, &self.table, id);
        self.links.state_law();
        named(&self.links, self.links.last(place))
    }

    /// Returns the next sibling; none for a root.
    pub fn next(&self, id: NodeId) -> Option<NodeId>
        requires { HasNode self.now.forest id }
        ensures { result ≡ next_of self.now.forest id }
    {
        let place = place_of(&self.links, &self.table, id);
        self.links.state_law();
        named(&self.links, self.links.next(place))
    }

    /// Returns the previous sibling; none for a root.
    pub fn prev(&self, id: NodeId) -> Option<NodeId>
        requires { HasNode self.now.forest id }
        ensures { result ≡ previous_of self.now.forest id }
    {
        let place = place_of(&self.links, &self.table, id);
        self.links.state_law();
        named(&self.links, self.links.prev(place))
    }

    /// Returns the number of children.
    pub fn count(&self, id: NodeId) -> usize
        requires { HasNode self.now.forest id }
        ensures { result ≡ length (children_of self.now.forest id) }
    {
        let place = place_of(&self.links, &self.table, id);
        self.links.count(place) as usize
    }

    /// Inserts a root into a parent's children before one of them, or as the last.
    #[inline(always)]
    pub fn put(&mut self, parent: NodeId, child: NodeId, before: Option<NodeId>)
        requires parent_held { HasNode self.old.forest parent }
        requires child_held { HasNode self.old.forest child }
        requires no_parent { parent_of self.old.forest child ≡ None }
        requires no_cycle { among child (ancestors parent self.old.forest) ≡ false }
        requires before_under { ForSome before (λ b. parent_of self.old.forest b ≡ Some parent) }
        requires kinds { MayStand self.old.forest parent child }
        ensures { self.new ≡ record self.old { forest = put parent child before self.old.forest } }
    {
        let above = place_of(&self.links, &self.table, parent);
        let below = place_of(&self.links, &self.table, child);
        let next = link_to(&self.links, &self.table, before);
        self.links.state_law();
        put_at(
            &mut self.links,
            &mut self.blocks,
            &mut self.tallies,
            above,
            below,
            next,
        );
    }

    /// Removes a child from its parent. It becomes a root with all its descendants.
    pub fn cut(&mut self, child: NodeId)
        requires { IsSome (parent_of self.old.forest child) }
        ensures { self.new ≡ record self.old { forest = cut child self.old.forest } }
    {
        let place = place_of(&self.links, &self.table, child);
        self.links.state_law();
        blocked_cut(&self.links, &mut self.blocks, place);
        tallied_cut(&self.links, &mut self.tallies, place);
        number_cut(&mut self.links, place);
        self.links.unlink(place);
    }
}
