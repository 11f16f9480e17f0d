//! Calls of `dom_observe`.

ghost use Rattle.std.specs.Prelude.{◌≡◌, ◌<◌, length, IfOk, IsSome};
ghost use Rattle.dom_model.specs.Forests.Forest.{HasNode, ancestors};
ghost use Rattle.dom_model.specs.Worlds.World.{Observing};
ghost use Rattle.dom_model.specs.MutationObservers.Observing.{standing_on, noted};
ghost use Rattle.dom_model.specs.MutationObservers.Records.{with_observer, observed, queue_of};
ghost use Rattle.dom_observe.specs.Watchers.{queue_in, Watches};
ghost use Rattle.uses.specs.Watching.{children_below};

use dom_observe::{Mutation, ObserverId, Observers, Options, Record};
use dom_tree::{NodeId, Tree};
use std::alloc::AllocError;

/// Makes an observer of the children of a node and of all its descendants.
pub fn watch_children(observers: &mut Observers, node: NodeId) -> Result<ObserverId, AllocError>
    requires room { length observers.old.queues < 4294967295 }
    ensures observes { IfOk result (λ id. (x : Observing) → Watches observers.old x →
        Watches observers.new (observed id node children_below (with_observer x))) }
{
    let options = Options {
        child_list: true,
        attributes: false,
        character_data: false,
        subtree: true,
        attribute_old_value: false,
        character_data_old_value: false,
        attribute_filter: None,
    };
    let observer = observers.make()?;
    observers.observe(observer, node, options)?;
    Ok(observer)
}

/// Queues the record of a change, and takes the queued records of one observer.
pub fn tell_and_take<X>(
    observers: &mut Observers,
    tree: &Tree<X>,
    change: &Mutation<'_>,
    observer: ObserverId,
) -> Result<Vec<Record>, AllocError>
    requires held { IsSome (queue_in observers.old observer) }
    requires target { HasNode tree.now.forest change.now.target }
    ensures records { IfOk result (λ records. (x : Observing) → Watches observers.old x →
        records.items ≡ queue_of observer
        (noted (record (change.now) {
          standing = standing_on
              (ancestors change.now.target tree.now.forest) x.registrations;
        }) x)) }
{
    observers.queue_record(tree, change)?;
    Ok(observers.take(observer))
}
