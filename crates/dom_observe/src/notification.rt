//! The records with which pending observers are notified.

ghost use Rattle.std.specs.Prelude.{◌≡◌, ℕ, Bool, if◌then◌else◌, [], filter, map, nat_eq, true, OnOk, OnErr, IfOk};
ghost use Rattle.std.specs.List.{IsDistinct};
ghost use Rattle.dom_model.specs.PlainLists.Lists.{among};
ghost use Rattle.dom_model.specs.MutationObservers.Records.{has_records};
ghost use Rattle.dom_observe.specs.Invariant.{AllThere};
ghost use Rattle.dom_observe.specs.QueuedNodes.{RecordsNameNone};
ghost use Rattle.dom_observe.specs.Notification.{notification_for};
ghost use Rattle.dom_observe.specs.Roster.{keys_by, queues_by, is_there, records_of};

use crate::observer_id::ObserverId;
use crate::queues::take_from;
use crate::record::Notification;
use crate::roster::Roster;
use indexmap::IndexSet;
use std::alloc::{AllocError, Global};

// Takes the records of the pending observers from their queues, in order, and leaves out empty queues.
//
// Reserves room for all of them before it takes the first.
pub(crate) fn gather(
    pending: &IndexSet<ObserverId>,
    roster: &mut Roster,
    alloc: Global,
) -> Result<Vec<Notification>, AllocError>
    requires { AllThere (is_there roster.old) pending.now.keys }
    ensures told { IfOk result (λ told. told.items
        ≡ filter has_records (map (notification_for (queues_by roster.old)) pending.now.keys)) }
    ensures emptied { OnOk result ((p : ℕ) → records_of roster.new p
        ≡ (if among p pending.now.keys then [] else records_of roster.old p)) }
    ensures err { OnErr result (roster.new ≡ roster.old) }
    ensures empty { (p : ℕ) → records_of roster.old p ≡ [] → records_of roster.new p ≡ [] }
    ensures names { (p : ℕ → Bool) → RecordsNameNone p (queues_by roster.old) →
        RecordsNameNone p (queues_by roster.new) }
    ensures keys { keys_by roster.new ≡ keys_by roster.old }
{
    let mut told = Vec::with_capacity(alloc, pending.len())?;
    for index in 0..pending.len() {
        if let Some(observer) = pending.get_index(index) {
            let observer = *observer;
            let records = take_from(roster, observer, alloc);
            if !records.is_empty() {
                told.push_reserved(Notification { observer, records });
            }
        }
    }
    Ok(told)
}
