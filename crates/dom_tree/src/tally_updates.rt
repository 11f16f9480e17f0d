//! Updates the tallies of Documents, in constant time.

ghost use Rattle.std.specs.Prelude.{◌≡◌, ℕ, None};
ghost use Rattle.dom_model.specs.declared.Kind.{Kind};
ghost use Rattle.dom_model.specs.Forests.Kinds.{is_kind};
ghost use Rattle.dom_model.specs.Forests.Arena.{entry_at};
ghost use Rattle.dom_links.specs.Placed.{slot_of, parent_at, HasParent, IsPlaced};
ghost use Rattle.dom_tree.specs.Slots.{nodes_alone};
ghost use Rattle.dom_tree.specs.Tallies.{tally_in, tally_but, has_in, tally_put, tally_cut, AreTallied};

use crate::item::Item;
use crate::neighbours::{self, number_of};
use crate::tallies::Tallies;
use dom_kinds::Kind;
use dom_links::{Place, Store};

// Returns the kind of the node at a place.
fn kind_at<X>(links: &Store<Item<X>>, place: Place) -> Kind
    requires { IsPlaced links.now place }
    ensures { (kind : Kind) → has_in (entry_at (nodes_alone links.now.arena))
        (slot_of links.now place) kind ≡ is_kind kind result }
{
    links.value(place).label.kind
}

/// Counts a child that is about to be inserted under a parent.
pub(crate) fn tallied_put<X>(
    links: &Store<Item<X>>,
    tallies: &mut Tallies,
    parent: Place,
    child: Place,
)
    requires parent_placed { IsPlaced links.now parent }
    requires child_placed { IsPlaced links.now child }
    requires tallied { AreTallied (entry_at (nodes_alone links.now.arena)) tallies.old }
    ensures { (p : ℕ) → tally_in tallies.new p ≡
        tally_put (entry_at (nodes_alone links.now.arena)) tallies.old (slot_of links.now parent)
        (slot_of links.now child) p }
{
    if kind_at(links, parent) == Kind::Document {
        let kind = kind_at(links, child);
        tallies.note(links.slot(parent), kind, number_of(links, child));
        tallies.raise(links.slot(parent), kind);
    }
}

/// Counts out a child that is about to be removed.
pub(crate) fn tallied_cut<X>(links: &Store<Item<X>>, tallies: &mut Tallies, child: Place)
    requires placed { IsPlaced links.now child }
    requires has_parent { HasParent links.now child }
    requires tallied { AreTallied (entry_at (nodes_alone links.now.arena)) tallies.old }
    ensures { (p : ℕ) → tally_in tallies.new p ≡
        tally_cut (entry_at (nodes_alone links.now.arena)) tallies.old (slot_of links.now child)
        (parent_at links.now child) p }
{
    let parent = neighbours::parent(links, child).unwrap();
    if kind_at(links, parent) == Kind::Document {
        tallies.lower(links.slot(parent), kind_at(links, child));
    }
}

/// Removes the tally of a node that is about to be freed.
pub(crate) fn tallied_take<X>(links: &Store<Item<X>>, tallies: &mut Tallies, place: Place)
    requires placed { IsPlaced links.now place }
    requires tallied { AreTallied (entry_at (nodes_alone links.now.arena)) tallies.old }
    ensures { (p : ℕ) → tally_in tallies.new p ≡ tally_but (slot_of links.now place) None
        tallies.old p }
{
    if kind_at(links, place) == Kind::Document {
        tallies.remove(links.slot(place));
    }
}
