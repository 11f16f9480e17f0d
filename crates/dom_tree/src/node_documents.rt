//! Node documents, and the number of nodes of each (DOM Standard, "Interface Node").

ghost use Rattle.std.specs.Prelude.{◌≡◌, ◌+◌, ◌<◌, ◌^◌, Some, IfSome};
ghost use Rattle.dom_model.specs.Forests.Forest.{HasNode, with_node, in_document};
ghost use Rattle.dom_tree.specs.NodeDocuments.{owned_by};
ghost use Rattle.dom_links.specs.Placed.{slot_of, entry_behind, IsPlaced};
ghost use Rattle.dom_tree.specs.Places.{with_arena};
ghost use Rattle.dom_tree.specs.Slots.{owned_in, document_in_slot, owning, one_more, one_less, homed};

use crate::item::Item;
use crate::neighbours::{place_at, place_of};
use crate::node_id::NodeId;
use crate::tree::Tree;
use dom_links::{Place, Store};

// Sets the number of nodes whose node document is the node at a place.
fn set_owned<X>(links: &mut Store<Item<X>>, place: Place, owned: u32)
    requires { IsPlaced links.old place }
    ensures { links.new ≡ with_arena (owning links.old.arena (slot_of links.old place) owned)
        links.old }
{
    let item = links.value_mut(place);
    item.owned = owned;
}

// Counts one node more for a node document.
fn count_in<X>(links: &mut Store<Item<X>>, document: Place)
    requires placed { IsPlaced links.old document }
    requires few { owned_in (entry_behind links.old document) + 1 < 2 ^ 32 }
    ensures { links.new ≡ with_arena (one_more links.old.arena (slot_of links.old document))
        links.old }
{
    let owned = links.value(document).owned;
    set_owned(links, document, owned + 1);
}

// Counts one node less for a node document.
fn count_out<X>(links: &mut Store<Item<X>>, document: Place)
    requires placed { IsPlaced links.old document }
    requires some { 0 < owned_in (entry_behind links.old document) }
    ensures { links.new ≡ with_arena (one_less links.old.arena (slot_of links.old document))
        links.old }
{
    let owned = links.value(document).owned;
    set_owned(links, document, owned - 1);
}

// Sets the node document of the node at a place, and returns the old one.
fn replace_document<X>(links: &mut Store<Item<X>>, place: Place, document: NodeId) -> NodeId
    requires { IsPlaced links.old place }
    ensures former { document_in_slot (entry_behind links.old place) ≡ Some result }
    ensures written { links.new ≡ with_arena (homed links.old.arena (slot_of links.old place)
        document) links.old }
{
    let item = links.value_mut(place);
    let former = item.document;
    item.document = document;
    former
}

impl<X> Tree<X> {
    /// Sets the node document of one node. If no node has that number, the nodes of each node document are no longer counted.
    #[inline(always)]
    pub(crate) fn move_to(&mut self, id: NodeId, document: NodeId)
        requires { HasNode self.old.forest id }
        ensures { self.new ≡ record self.old {
          forest = with_node id (in_document document)
              self.old.forest;
        } }
    {
        let place = place_of(&self.links, &self.table, id);
        let former = replace_document(&mut self.links, place, document);
        if self.strays {
            return;
        }
        let Some(to) = place_at(&self.links, &self.table, document) else {
            self.strays = true;
            return;
        };
        let from = place_of(&self.links, &self.table, former);
        count_out(&mut self.links, from);
        count_in(&mut self.links, to);
    }

    /// States a law, and does nothing: its contract bounds the number of nodes.
    pub(crate) fn state_size_law(&self)
        ensures { self.now.made < 2 ^ 32 }
    {
        let _ = &self.links;
    }

    /// Returns the number of nodes whose node document is a node, if they are counted.
    pub(crate) fn owned(&self, id: NodeId) -> Option<u64>
        requires { HasNode self.now.forest id }
        ensures { IfSome result (λ n. n ≡ owned_by self.now.forest self.now.made id) }
    {
        let place = place_of(&self.links, &self.table, id);
        if self.strays {
            return None;
        }
        Some(self.links.value(place).owned as u64)
    }
}
