//! The queues of records that wait for their observers.

ghost use Rattle.std.specs.Prelude.{◌≡◌, [], Some, slice_set, true};
ghost use Rattle.dom_observe.specs.Invariant.{AllThere};
ghost use Rattle.dom_observe.specs.Roster.{keys_by, queues_by, is_there, records_of};

use crate::observer_id::ObserverId;
use crate::record::Record;
use crate::roster::Roster;
use indexmap::IndexSet;
use std::alloc::Global;

// Takes the records from an observer's queue.
pub(crate) fn take_from(roster: &mut Roster, observer: ObserverId, alloc: Global) -> Vec<Record>
    requires { is_there roster.old observer ≡ true }
    ensures records { result.items ≡ records_of roster.old observer }
    ensures emptied { queues_by roster.new ≡ slice_set (queues_by roster.old) observer (Some []) }
    ensures keys { keys_by roster.new ≡ keys_by roster.old }
{
    let kept = roster.get_mut(observer);
    kept.queue.take(alloc)
}

// Updates the sets of nodes of some observers' queues. It takes no memory.
pub(crate) fn flush_each(roster: &mut Roster, observers: &IndexSet<ObserverId>)
    requires { AllThere (is_there roster.old) observers.now.keys }
    ensures queues { queues_by roster.new ≡ queues_by roster.old }
    ensures keys { keys_by roster.new ≡ keys_by roster.old }
{
    for observer in observers.as_slice() {
        let kept = roster.get_mut(*observer);
        kept.queue.flush_pending();
    }
}
