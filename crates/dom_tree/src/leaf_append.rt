//! The fast path of appending a leaf, with one look-up of each number (DOM Standard, "Mutation algorithms", insert).

ghost use Rattle.std.specs.Prelude.{◌≡◌, ◌⊎◌, true, false, None};
ghost use Rattle.dom_model.specs.Forests.Forest.{put};
ghost use Rattle.dom_tree.specs.PutConditions.{takes_leaf, IsLeafFor, HasManyChildren};

use crate::at::At;
use crate::blocks::LONG;
use crate::insertion::put_at;
use crate::neighbours::place_at;
use crate::node_id::NodeId;
use crate::tree::Tree;
use dom_kinds::Kind;
use dom_links::Link;

// Returns whether a parent of a kind accepts a child of the other kind, whatever children it has.
fn takes_leaf(parent: Kind, leaf: Kind) -> bool
    ensures { result ≡ takes_leaf parent leaf }
{
    matches!(parent, Kind::Element | Kind::DocumentFragment)
        && matches!(
            leaf,
            Kind::Element | Kind::Text | Kind::ProcessingInstruction | Kind::Comment
        )
}

// Returns whether a root without children can be appended to a parent without further checks and changes.
fn is_leaf_for<X>(parent: &At<'_, X>, leaf: &At<'_, X>) -> bool
    requires { leaf.now.tree ≡ parent.now.tree }
    ensures is { result ≡ true → IsLeafFor parent.now.tree.forest parent.now.node leaf.now.node }
    ensures not { result ≡ false → ¬ IsLeafFor parent.now.tree.forest parent.now.node leaf.now.node }
{
    parent.state_law();
    leaf.state_law();
    takes_leaf(parent.label().kind, leaf.label().kind)
        && parent.number() != leaf.number()
        && parent.document() == leaf.document()
        && leaf.parent().is_none()
        && leaf.first().is_none()
}

impl<X> Tree<X> {
    /// Appends a root without children to a parent, and returns whether it did. Looks up each of the two numbers once.
    ///
    /// Fast path: it succeeds only if both exist and have the same node document. The parent must be an element or a fragment without a long list of
    /// children, and accept the root's kind. On `false` nothing has changed, and the caller has to check step by step.
    #[inline(always)]
    pub fn put_leaf(&mut self, parent: NodeId, leaf: NodeId) -> bool
        ensures leaf { result ≡ true → IsLeafFor self.old.forest parent leaf }
        ensures put { result ≡ true → self.new ≡ record self.old {
          forest = put parent leaf None self.old.forest;
        } }
        ensures left { result ≡ false → self.new ≡ self.old }
        ensures not { result ≡ false → ¬ IsLeafFor self.old.forest parent leaf
            ⊎ HasManyChildren self.old.forest parent }
    {
        let Some(above) = place_at(&self.links, &self.table, parent) else {
            return false;
        };
        let Some(below) = place_at(&self.links, &self.table, leaf) else {
            return false;
        };
        let links = &self.links;
        let table = &self.table;
        let parent_at = At {
            links,
            table,
            place: above,
        };
        let leaf_at = At {
            links,
            table,
            place: below,
        };
        if LONG <= links.count(above) {
            return false;
        }
        if !is_leaf_for(&parent_at, &leaf_at) {
            return false;
        }
        self.state_law();
        self.links.state_law();
        put_at(
            &mut self.links,
            &mut self.blocks,
            &mut self.tallies,
            above,
            below,
            Link::none(),
        );
        true
    }
}
