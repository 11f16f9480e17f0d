//! Which nodes registrations and waiting records refer to.

ghost use Rattle.std.specs.Prelude.{◌≡◌, ◌||◌, flat_map};
ghost use Rattle.std.specs.List.{list_any};
ghost use Rattle.std.specs.Map.{keys_of};
ghost use Rattle.dom_model.specs.PlainLists.Lists.{among};
ghost use Rattle.dom_model.specs.Forests.Forest.{HasNode, inclusive_descendants};
ghost use Rattle.dom_model.specs.MutationAlgorithms.Discarding.{nodes_of_record};
ghost use Rattle.dom_observe.specs.Invariant.{AllThere};
ghost use Rattle.dom_observe.specs.Roster.{is_there, records_of};

use crate::observer_id::ObserverId;
use crate::registrations::Registrations;
use crate::roster::Roster;
use dom_tree::{NodeId, Tree};
use indexmap::IndexSet;

// Returns whether a registration is at a node inside a subtree.
//
// Walks the subtree, or climbs from each node with a registration if that takes fewer steps.
pub(crate) fn is_named<X>(tree: &Tree<X>, top: NodeId, registrations: &Registrations) -> bool
    requires { HasNode tree.now.forest top }
    ensures { result ≡ list_any (λ m. among m (inclusive_descendants tree.now.forest top))
        (keys_of registrations.now.lists) }
{
    let steps = tree.steps_inside(top, |index| registrations.node_at(index));
    tree.any_inside(top, steps, |node| registrations.stand_on(node))
        .unwrap_or_else(|| registrations.stand_inside(tree, top))
}

// Returns whether a waiting record of one of some observers refers to a node inside a subtree.
fn is_in_queues_of<X>(
    tree: &Tree<X>,
    top: NodeId,
    roster: &Roster,
    observers: &IndexSet<ObserverId>,
) -> bool
    requires held { HasNode tree.now.forest top }
    requires there { AllThere (is_there roster.now) observers.now.keys }
    ensures { result ≡ list_any
        (λ o. list_any (λ m. among m (inclusive_descendants tree.now.forest top))
        (flat_map nodes_of_record (records_of roster.now o))) observers.now.keys }
{
    for observer in observers.as_slice() {
        if roster.get(*observer).queue.names_inside(tree, top) {
            return true;
        }
    }
    false
}

// Returns whether a waiting record refers to a node inside a subtree: one of a pending observer, or of one that was taken and not notified since.
pub(crate) fn is_in_queues<X>(
    tree: &Tree<X>,
    top: NodeId,
    roster: &Roster,
    pending: &IndexSet<ObserverId>,
    untold: &IndexSet<ObserverId>,
) -> bool
    requires held { HasNode tree.now.forest top }
    requires pending { AllThere (is_there roster.now) pending.now.keys }
    requires untold { AllThere (is_there roster.now) untold.now.keys }
    ensures { result ≡ (list_any (λ o. list_any (λ m.
        among m (inclusive_descendants tree.now.forest top))
        (flat_map nodes_of_record (records_of roster.now o))) pending.now.keys
        || list_any (λ o. list_any (λ m. among m (inclusive_descendants tree.now.forest top))
        (flat_map nodes_of_record (records_of roster.now o))) untold.now.keys) }
{
    is_in_queues_of(tree, top, roster, pending) || is_in_queues_of(tree, top, roster, untold)
}
