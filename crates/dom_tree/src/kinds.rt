//! The kind of a node (DOM Standard, "Interface Node").

ghost use Rattle.std.specs.Prelude.{◌≡◌, Some, IfSome, true};
ghost use Rattle.dom_model.specs.Forests.Forest.{HasNode, parent_of, children_of};
ghost use Rattle.dom_model.specs.Forests.Kinds.{is_character_data};
ghost use Rattle.dom_model.specs.Forests.Nodes.{is_of_kind, kind_passes};
ghost use Rattle.dom_model.specs.MutationAlgorithms.Checks.{count_kind};

use crate::neighbours::place_of;
use crate::node_id::NodeId;
use crate::tree::Tree;
use dom_kinds::{Kind, is_character_data};

impl<X> Tree<X> {
    /// Returns whether a node is of a kind.
    pub fn is_of_kind(&self, id: NodeId, kind: Kind) -> bool
        requires { HasNode self.now.forest id }
        ensures { result ≡ is_of_kind kind self.now.forest id }
    {
        self.label(id).kind == kind
    }

    /// Returns how many children of a node are of a kind, if they are counted: the elements and doctypes of a Document. It takes no memory.
    pub fn children_of_kind(&self, parent: NodeId, kind: Kind) -> Option<u32>
        requires { HasNode self.now.forest parent }
        ensures { IfSome result (λ n. n ≡ count_kind kind self.now.forest
            (children_of self.now.forest parent)) }
    {
        let place = place_of(&self.links, &self.table, parent);
        self.links.state_law();
        let tally = self.tallies.get(self.links.slot(place))?;
        match kind {
            Kind::Element => Some(tally.elements),
            Kind::DocumentType => Some(tally.doctypes),
            _ => None,
        }
    }

    /// Returns a child of a node that is of a kind, if one is known without a look at the others. It takes no memory.
    ///
    /// Known are the element and the doctype that were inserted last into a Document, if they are still its children.
    pub fn known_child(&self, parent: NodeId, kind: Kind) -> Option<NodeId>
        requires { HasNode self.now.forest parent }
        ensures child { IfSome result (λ child. parent_of self.now.forest child ≡ Some parent) }
        ensures kind { IfSome result (λ child. is_of_kind kind self.now.forest child ≡ true) }
    {
        let place = place_of(&self.links, &self.table, parent);
        let child = self.tallies.latest(self.links.slot(place), kind)?;
        if self.holds(child) && self.parent(child) == Some(parent) && self.is_of_kind(child, kind) {
            return Some(child);
        }
        None
    }

    /// Returns whether a node has character data (DOM Standard, "Interface CharacterData").
    pub fn has_data(&self, id: NodeId) -> bool
        requires { HasNode self.now.forest id }
        ensures { result ≡ kind_passes is_character_data self.now.forest id }
    {
        is_character_data(self.label(id).kind)
    }
}
