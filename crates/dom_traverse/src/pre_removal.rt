//! How node iterators give way before a node leaves with its tree.

ghost use Rattle.std.specs.Prelude.{◌≡◌, ◌<◌, length, map, slice_get, slice_set, IfSome, true};
ghost use Rattle.std.specs.Option.{ForSome};
ghost use Rattle.dom_model.specs.PlainLists.Lists.{among};
ghost use Rattle.dom_model.specs.Forests.Forest.{HasNode, inclusive_descendants};
ghost use Rattle.dom_model.specs.MutationAlgorithms.PreRemoval.{pre_removed};
ghost use Rattle.dom_traverse.specs.NewReferences.{IsExit};
ghost use Rattle.dom_traverse.specs.PreRemoval.{StandAtReferences, GaveWay};

use crate::iterator::NodeIterator;
use crate::located::flush_pending;
use crate::new_reference::NewReference;
use crate::positions_by_node::PositionsByNode;
use crate::preceding_and_following::has_few_inside;
use dom_slots::NumberedItems;
use dom_tree::{NodeId, Tree};

// The reference of an iterator; none past the last.
fn reference(iterators: &[NodeIterator], index: usize) -> Option<NodeId> {
    let iterator = iterators.get(index)?;
    Some(iterator.reference)
}

// The pre-removing steps of every iterator, before a node is taken from its parent. It walks the nodes inside, or climbs from each
// reference where that takes fewer steps.
pub(crate) fn removing<X>(
    iterators: &mut NumberedItems<NodeIterator>,
    references: &mut PositionsByNode,
    tree: &Tree<X>,
    node: NodeId,
)
    requires held { HasNode tree.now.forest node }
    requires stand { StandAtReferences iterators.old.items references.old }
    ensures removed { iterators.new.items
        ≡ map (pre_removed tree.now.forest node) iterators.old.items }
    ensures slots { iterators.new.slots ≡ iterators.old.slots }
    ensures stand { StandAtReferences iterators.new.items references.new }
{
    let items = iterators.items();
    let steps = tree.steps_inside(node, |index| reference(items, index));
    if has_few_inside(tree, node, steps) {
        removing_inside(iterators, references, tree, node);
    } else {
        removing_each(iterators, references, tree, node);
    }
}

// The same, by the iterators at each node inside.
fn removing_inside<X>(
    iterators: &mut NumberedItems<NodeIterator>,
    references: &mut PositionsByNode,
    tree: &Tree<X>,
    node: NodeId,
)
    requires held { HasNode tree.now.forest node }
    requires stand { StandAtReferences iterators.old.items references.old }
    ensures removed { iterators.new.items
        ≡ map (pre_removed tree.now.forest node) iterators.old.items }
    ensures slots { iterators.new.slots ≡ iterators.old.slots }
    ensures stand { StandAtReferences iterators.new.items references.new }
{
    tree.state_law();
    let mut here = node;
    let mut last = None;
    loop {
        last = give_way(iterators, references, tree, node, here, last);
        let Some(next) = tree.next_inside(node, here) else {
            return;
        };
        here = next;
    }
}

// The pre-removing steps of the iterators whose reference is `here`, inside the node, and of others that are found with them. First those
// that wait come to stand: all that stepped, or those that gave way at the node before. Those that are found wait from then on, so that the
// walk meets each once; one that only shares the place stays, and is asked for its reference alone. Where those of a root go is found once for
// all that follow one another.
fn give_way<X>(
    iterators: &mut NumberedItems<NodeIterator>,
    references: &mut PositionsByNode,
    tree: &Tree<X>,
    node: NodeId,
    here: NodeId,
    last: Option<NewReference>,
) -> Option<NewReference>
    requires held { HasNode tree.now.forest node }
    requires inside { among here (inclusive_descendants tree.now.forest node) ≡ true }
    requires found { ForSome last (IsExit tree.now.forest node) }
    requires stand { StandAtReferences iterators.old.items references.old }
    ensures gave { GaveWay (pre_removed tree.now.forest node) here iterators.old.items
        iterators.new.items }
    ensures slots { iterators.new.slots ≡ iterators.old.slots }
    ensures stand { StandAtReferences iterators.new.items references.new }
    ensures found { ForSome result (IsExit tree.now.forest node) }
{
    flush_pending(iterators.items(), references);
    let mut last = last;
    while let Some(slot) = references.first(here) {
        let iterator = iterators.in_slot_mut(slot);
        last = iterator.removing_at(tree, node, here, last);
        references.leave(slot);
    }
    last
}

// The pre-removing steps of every iterator, one after another.
fn removing_each<X>(
    iterators: &mut NumberedItems<NodeIterator>,
    references: &mut PositionsByNode,
    tree: &Tree<X>,
    node: NodeId,
)
    requires held { HasNode tree.now.forest node }
    requires stand { StandAtReferences iterators.old.items references.old }
    ensures removed { iterators.new.items
        ≡ map (pre_removed tree.now.forest node) iterators.old.items }
    ensures slots { iterators.new.slots ≡ iterators.old.slots }
    ensures stand { StandAtReferences iterators.new.items references.new }
{
    let mut last = None;
    for slot in 0..iterators.count() {
        last = step_off(iterators, references, tree, node, slot, last);
    }
}

// The pre-removing steps of one iterator.
fn step_off<X>(
    iterators: &mut NumberedItems<NodeIterator>,
    references: &mut PositionsByNode,
    tree: &Tree<X>,
    node: NodeId,
    slot: usize,
    last: Option<NewReference>,
) -> Option<NewReference>
    requires held { HasNode tree.now.forest node }
    requires there { slot < length iterators.old.items }
    requires found { ForSome last (IsExit tree.now.forest node) }
    requires stand { StandAtReferences iterators.old.items references.old }
    ensures stepped { IfSome (slice_get iterators.old.items slot) (λ i. iterators.new.items
        ≡ slice_set iterators.old.items slot (pre_removed tree.now.forest node i)) }
    ensures slots { iterators.new.slots ≡ iterators.old.slots }
    ensures stand { StandAtReferences iterators.new.items references.new }
    ensures found { ForSome result (IsExit tree.now.forest node) }
{
    tree.state_law();
    let iterator = iterators.in_slot_mut(slot);
    let stood = iterator.reference;
    let last = iterator.removing(tree, node, last);
    if iterator.reference != stood {
        references.leave(slot);
    }
    last
}
