//! Records of changed data and attributes (DOM Standard, "Mutation observers", queue a mutation record).

ghost use Rattle.std.specs.Prelude.{◌≡◌, None, Some, length, OnOk, OnErr, IsOk};
ghost use Rattle.dom_model.specs.declared.RecordType.TheVariants.{CharacterData, Attributes};
ghost use Rattle.dom_model.specs.Forests.Attributes.{attribute_value};
ghost use Rattle.dom_model.specs.Forests.Forest.{HasNode, entry_in, ancestors};
ghost use Rattle.dom_model.specs.DataAndCopies.Data.{content_in, data_record, attribute_record};
ghost use Rattle.dom_observe.specs.ObservedNodes.{SameObservers};
ghost use Rattle.dom_observe.specs.Undoing.{IsQueued};
ghost use Rattle.dom_observe.specs.Watchers.{Watchers};
ghost use Rattle.dom_edit.specs.Whole.{IsWhole, IsUnobserved, Follows};
ghost use Rattle.dom_data.specs.Changes.{change_of};

use crate::bodies::value_in;
use dom_edit::{Content, World, data_in};
use dom_model::RecordType;
use dom_observe::Mutation;
use dom_tree::{NodeId, Tree};
use std::alloc::AllocError;

// Returns the mutation of a node's data, with its present text.
fn data_change(tree: &Tree<Content>, node: NodeId) -> Mutation<'_>
    requires held { HasNode tree.now.forest node }
    ensures { result ≡ change_of CharacterData node None
        (Some (content_in (entry_in tree.now.forest node)).text) }
{
    Mutation {
        what: RecordType::CharacterData,
        target: node,
        added: &[],
        removed: &[],
        previous: None,
        next: None,
        name: None,
        old_value: Some(data_in(tree, node)),
    }
}

// Queues a record of a node's data, which is about to change, for each interested observer, in the observers' own memory.
pub(crate) fn queue_data_record(world: &mut World, node: NodeId) -> Result<(), AllocError>
    requires whole { IsWhole world.old }
    requires held { HasNode world.old.tree.forest node }
    ensures told { OnOk result (Follows world.old world.new (data_record node)) }
    ensures own { OnOk result (IsQueued (ancestors node world.old.tree.forest)
        (change_of CharacterData node None
        (Some (content_in (entry_in world.old.tree.forest node)).text))
        world.old.observers world.new.observers) }
    ensures kept { world.new ≡ record world.old { observers = world.new.observers } }
    ensures err { OnErr result (world.new ≡ world.old) }
    ensures observers { SameObservers world.old.observers world.new.observers }
    ensures succeeds { IsUnobserved world.old → IsOk result }
    ensures unobserved { IsUnobserved world.old → world.new ≡ world.old }
    ensures whole { IsWhole world.new }
{
    if world.observers.is_idle() {
        return Ok(());
    }
    let mutation = data_change(&world.tree, node);
    world.observers.queue_record(&world.tree, &mutation)
}

// Takes back the record of a node's data that was queued last, if the data is as it was then. It takes no memory.
//
// `pending` is how many observers were pending before it.
pub(crate) fn unqueue_data_record(world: &mut World, node: NodeId, pending: usize)
    requires held { HasNode world.old.tree.forest node }
    ensures { (older : Watchers) → IsQueued (ancestors node world.old.tree.forest)
        (change_of CharacterData node None
        (Some (content_in (entry_in world.old.tree.forest node)).text))
        older world.old.observers → pending ≡ length older.pending →
        world.new ≡ record world.old { observers = older } }
{
    let mutation = data_change(&world.tree, node);
    world.observers.unqueue(&world.tree, &mutation, pending);
}

// Returns the mutation of an attribute, with its present value.
fn attribute_change<'a>(tree: &'a Tree<Content>, node: NodeId, name: &'a str) -> Mutation<'a>
    requires held { HasNode tree.now.forest node }
    ensures { result ≡ change_of Attributes node (Some name.now)
        (attribute_value name.now (content_in (entry_in tree.now.forest node)).attributes) }
{
    let old_value = value_in(tree, node, name);
    Mutation {
        what: RecordType::Attributes,
        target: node,
        added: &[],
        removed: &[],
        previous: None,
        next: None,
        name: Some(name),
        old_value,
    }
}

// Queues a record of an attribute, which is about to change, for each interested observer, in the observers' own memory.
pub(crate) fn queue_attribute_record(
    world: &mut World,
    node: NodeId,
    name: &str,
) -> Result<(), AllocError>
    requires whole { IsWhole world.old }
    requires held { HasNode world.old.tree.forest node }
    ensures told { OnOk result (Follows world.old world.new (attribute_record node name.now)) }
    ensures own { OnOk result (IsQueued (ancestors node world.old.tree.forest)
        (change_of Attributes node (Some name.now)
        (attribute_value name.now (content_in (entry_in world.old.tree.forest node)).attributes))
        world.old.observers world.new.observers) }
    ensures kept { world.new ≡ record world.old { observers = world.new.observers } }
    ensures err { OnErr result (world.new ≡ world.old) }
    ensures observers { SameObservers world.old.observers world.new.observers }
    ensures succeeds { IsUnobserved world.old → IsOk result }
    ensures unobserved { IsUnobserved world.old → world.new ≡ world.old }
    ensures whole { IsWhole world.new }
{
    if world.observers.is_idle() {
        return Ok(());
    }
    let mutation = attribute_change(&world.tree, node, name);
    world.observers.queue_record(&world.tree, &mutation)
}

// Takes back the record of an attribute that was queued last, if the attribute is as it was then. It takes no memory.
//
// `pending` is how many observers were pending before it.
pub(crate) fn unqueue_attribute_record(world: &mut World, node: NodeId, name: &str, pending: usize)
    requires held { HasNode world.old.tree.forest node }
    ensures { (older : Watchers) → IsQueued (ancestors node world.old.tree.forest)
        (change_of Attributes node (Some name.now)
        (attribute_value name.now (content_in (entry_in world.old.tree.forest node)).attributes))
        older world.old.observers → pending ≡ length older.pending →
        world.new ≡ record world.old { observers = older } }
{
    let mutation = attribute_change(&world.tree, node, name);
    world.observers.unqueue(&world.tree, &mutation, pending);
}
