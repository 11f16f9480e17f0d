//! Which observers a mutation interests, and their records (DOM Standard, "queue a mutation record").

ghost use Rattle.std.specs.Prelude.{◌≡◌, ℕ, ◌+◌, ◌-◌, ◌<◌, ◌≤◌, Bool, false, ◌==◌, List, [], ◌∷◌, ◌++◌, ◌||◌, length, take, true, if◌then◌else◌, map, unwrap_or, nat_eq, None, Some, IfSome, IfOk, OnOk, OnErr};
ghost use Rattle.std.specs.List.{AllByRecursion, list_any};
ghost use Rattle.std.specs.Map.{lookup, keys_of};
ghost use Rattle.indexmap.specs.IndexMap.{get, IsUnique};
ghost use Rattle.indexmap.specs.IndexSet.{spare};
ghost use Rattle.dom_model.specs.PlainLists.Lists.{among};
ghost use Rattle.dom_model.specs.PlainLists.LastOnce.{with_all_last, with_last};
ghost use Rattle.dom_observe.specs.Names.{given_name};
ghost use Rattle.dom_observe.specs.Registrations.{at, HasRegistration};
ghost use Rattle.dom_observe.specs.ObservedNodes.{nodes_of_mutation};
ghost use Rattle.dom_observe.specs.Invariant.{AllThere};
ghost use Rattle.dom_observe.specs.QueuedNodes.{RecordsNameOnly};
ghost use Rattle.dom_model.specs.Worlds.World.{Mutation as PlainMutation};
ghost use Rattle.dom_model.specs.MutationObservers.Record.{Record as PlainRecord};
ghost use Rattle.dom_observe.specs.Roster.{keys_by, queues_by, is_there, records_of};
ghost use Rattle.dom_observe.specs.Interested.{listener_under, listeners, listeners_to, flag_of, joined_interest, IsOnly, delivered};

use crate::observer_id::ObserverId;
use crate::record::{Mutation, Record};
use crate::registration::Question;
use crate::registrations::Registrations;
use crate::roster::Roster;
use indexmap::{IndexMap, IndexSet};
use std::alloc::{AllocError, Global};

// Returns the observer that a registration under a key makes interested, and whether it asks for the old value.
#[inline(always)]
pub(crate) fn listener_at(
    registrations: &Registrations,
    key: usize,
    question: &Question<'_>,
) -> Option<(ObserverId, bool)>
    ensures { result ≡ listener_under (at registrations.now) question.now.what question.now.target
        (given_name question.now.name) key }
{
    match registrations.get(key) {
        Some(registration) if registration.concerns(question) => Some((
            registration.observer,
            registration.options.asks_old_value(question.what),
        )),
        _ => None,
    }
}

// Notes an interested observer once. It asks for the old value if one of its registrations does.
fn note(heard: &mut IndexMap<u32, bool>, observer: ObserverId, asks: bool) -> Result<(), AllocError>
    ensures ok { OnOk result ((p : ℕ) → get nat_eq heard.new p
        ≡ (if observer == p then Some (unwrap_or (get nat_eq heard.old p) false || asks)
        else get nat_eq heard.old p)) }
    ensures order { OnOk result (keys_of heard.new.entries
        ≡ with_last (keys_of heard.old.entries) observer) }
    ensures unique { IsUnique nat_eq heard.new }
{
    let number = observer.number();
    let asked = heard.get(&number).copied().unwrap_or(false);
    heard.insert(number, asked || asks)?;
    Ok(())
}

// Joins two interested observers; returns none if they differ.
fn joined(
    only: Option<(ObserverId, bool)>,
    listener: (ObserverId, bool),
) -> Option<(ObserverId, bool)>
    ensures { result ≡ joined_interest only listener }
{
    let (observer, asks) = listener;
    match only {
        None => Some((observer, asks)),
        Some((first, asked)) if first == observer => Some((first, asked || asks)),
        Some(_) => None,
    }
}

// Returns the only interested observer by the registrations under the keys, and whether it asks for the old value; none if there are several or none.
fn only_listener(
    registrations: &Registrations,
    standing: &[usize],
    question: &Question<'_>,
) -> Option<(ObserverId, bool)>
    ensures only { IfSome result (λ only. IsOnly only
        (listeners (at registrations.now) question.now.what question.now.target (given_name question.now.name)
        standing.now)) }
    ensures known { IfSome result (λ only. (p : ℕ → Bool) →
        AllByRecursion (HasRegistration (at registrations.now) p) standing.now → p only.0 ≡ true) }
{
    let mut only = None;
    for key in standing {
        if let Some(listener) = listener_at(registrations, *key, question) {
            only = Some(joined(only, listener)?);
        }
    }
    only
}

// Returns whether an observer is the last in the pending list.
#[inline(always)]
fn is_last(pending: &IndexSet<ObserverId>, observer: ObserverId) -> bool
    ensures { result ≡ true → with_last pending.now.keys observer ≡ pending.now.keys }
{
    match pending.last() {
        Some(last) => *last == observer,
        None => false,
    }
}

// Adds an observer to the pending list, unless it is in it.
#[inline(always)]
pub(crate) fn mark_pending(
    pending: &mut IndexSet<ObserverId>,
    observer: ObserverId,
) -> Result<(), AllocError>
    ensures ok { OnOk result (pending.new.keys ≡ with_last pending.old.keys observer) }
    ensures err { OnErr result (pending.new.keys ≡ pending.old.keys) }
{
    if is_last(pending, observer) {
        return Ok(());
    }
    pending.insert(observer)?;
    Ok(())
}

// Does so within reserved room. It takes no memory.
#[inline(always)]
pub(crate) fn mark_pending_reserved(pending: &mut IndexSet<ObserverId>, observer: ObserverId)
    requires { 0 < spare pending.old }
    ensures keys { pending.new.keys ≡ with_last pending.old.keys observer }
    ensures room { spare pending.old ≤ spare pending.new + 1 }
{
    if !is_last(pending, observer) {
        pending.insert(observer).unwrap();
    }
}

// Adds the interested observers to the pending list in order, within reserved room. It takes no memory.
fn mark_each(pending: &mut IndexSet<ObserverId>, heard: &IndexMap<u32, bool>)
    requires { length heard.now.entries ≤ spare pending.old }
    ensures { pending.new.keys ≡ with_all_last pending.old.keys (keys_of heard.now.entries) }
{
    for index in 0..heard.len() {
        if let Some((observer, _)) = heard.get_index(index) {
            mark_pending_reserved(pending, ObserverId::new(*observer));
        }
    }
}

// Returns the interested observers by the registrations under the keys, in the order in which they become pending.
fn find_interested(
    registrations: &Registrations,
    standing: &[usize],
    question: &Question<'_>,
    alloc: Global,
) -> Result<IndexMap<u32, bool>, AllocError>
    ensures heard { IfOk result (λ heard. (p : ℕ) →
        get nat_eq heard p ≡ flag_of p (listeners (at registrations.now) question.now.what
        question.now.target (given_name question.now.name) standing.now)) }
    ensures order { IfOk result (λ heard. keys_of heard.entries
        ≡ with_all_last [] (keys_of (listeners (at registrations.now) question.now.what
        question.now.target (given_name question.now.name) standing.now))) }
    ensures known { IfOk result (λ heard. (p : ℕ → Bool) →
        AllByRecursion (HasRegistration (at registrations.now) p) standing.now →
        AllThere p (keys_of heard.entries)) }
    ensures unique { IfOk result (IsUnique nat_eq) }
{
    let mut heard = IndexMap::new(alloc);
    for key in standing {
        if let Some(listener) = listener_at(registrations, *key, question) {
            note(&mut heard, listener.0, listener.1)?;
        }
    }
    Ok(heard)
}

// Appends a record to a queue.
#[inline(always)]
fn push_record(roster: &mut Roster, observer: u32, told: Record) -> Result<(), AllocError>
    requires { is_there roster.old observer ≡ true }
    ensures ok { OnOk result ((p : ℕ) → records_of roster.new p
        ≡ (if observer == p then records_of roster.old p ++ told ∷ []
        else records_of roster.old p)) }
    ensures err { OnErr result (roster.new ≡ roster.old) }
    ensures keys { keys_by roster.new ≡ keys_by roster.old }
{
    let kept = roster.get_mut(ObserverId::new(observer));
    kept.queue.push(told)
}

// Appends a record of the mutation to a queue, with the old value if the observer asks for it.
#[inline(always)]
fn push_record_of(
    roster: &mut Roster,
    observer: u32,
    asks: bool,
    mutation: &Mutation<'_>,
    alloc: Global,
) -> Result<(), AllocError>
    requires { is_there roster.old observer ≡ true }
    ensures told { OnOk result ((p : ℕ) → records_of roster.new p
        ≡ records_of roster.old p ++ delivered mutation.now (if observer == p then Some asks
        else None)) }
    ensures err { OnErr result (roster.new ≡ roster.old) }
    ensures keys { keys_by roster.new ≡ keys_by roster.old }
{
    let told = mutation.record(alloc, asks)?;
    push_record(roster, observer, told)
}

// Appends a record of the mutation to an observer's queue, and adds the observer to the pending list. After an error nothing has changed.
fn queue_for_one(
    roster: &mut Roster,
    pending: &mut IndexSet<ObserverId>,
    listener: (ObserverId, bool),
    mutation: &Mutation<'_>,
    alloc: Global,
) -> Result<(), AllocError>
    requires { is_there roster.old listener.0 ≡ true }
    ensures told { OnOk result ((p : ℕ) → records_of roster.new p
        ≡ records_of roster.old p ++ delivered mutation.now (if listener.0 == p then Some listener.1
        else None)) }
    ensures pending { OnOk result (pending.new.keys ≡ with_last pending.old.keys listener.0) }
    ensures err { OnErr result (roster.new ≡ roster.old) }
    ensures err_pending { OnErr result (pending.new.keys ≡ pending.old.keys) }
    ensures keys { keys_by roster.new ≡ keys_by roster.old }
{
    let (observer, asks) = listener;
    pending.reserve(1)?;
    push_record_of(roster, observer.number(), asks, mutation, alloc)?;
    mark_pending_reserved(pending, observer);
    Ok(())
}

// Removes the last record of an observer's queue. It takes no memory.
pub(crate) fn remove_last(roster: &mut Roster, observer: u32)
    requires { is_there roster.old observer ≡ true }
    ensures left { (p : ℕ) → records_of roster.new p ≡ (if observer == p
        then take (length (records_of roster.old p) - 1) (records_of roster.old p)
        else records_of roster.old p) }
    ensures keys { keys_by roster.new ≡ keys_by roster.old }
{
    let kept = roster.get_mut(ObserverId::new(observer));
    kept.queue.remove_last();
}

// Removes the records of a mutation that the first interested observers have got, from the last of them to the first. It takes no memory.
fn take_back(roster: &mut Roster, heard: &IndexMap<u32, bool>, count: usize)
    requires unique { IsUnique nat_eq heard.now }
    requires there { AllThere (is_there roster.old) (keys_of heard.now.entries) }
    ensures left { (m : PlainMutation) (before : ℕ → List PlainRecord) → ((p : ℕ) → records_of roster.old p
        ≡ before p ++ delivered m (lookup (nat_eq p) (take count heard.now.entries))) →
        (p : ℕ) → records_of roster.new p ≡ before p }
    ensures keys { keys_by roster.new ≡ keys_by roster.old }
{
    let mut left = count;
    while left > 0 {
        left -= 1;
        if let Some((observer, _)) = heard.get_index(left) {
            remove_last(roster, *observer);
        }
    }
}

// Appends a record of the mutation to the queue of each interested observer. After an error no queue has changed.
fn queue_for_each(
    roster: &mut Roster,
    heard: &IndexMap<u32, bool>,
    mutation: &Mutation<'_>,
    alloc: Global,
) -> Result<(), AllocError>
    requires unique { IsUnique nat_eq heard.now }
    requires there { AllThere (is_there roster.old) (keys_of heard.now.entries) }
    ensures ok { OnOk result ((p : ℕ) → records_of roster.new p
        ≡ records_of roster.old p ++ delivered mutation.now (get nat_eq heard.now p)) }
    ensures err { OnErr result (queues_by roster.new ≡ queues_by roster.old) }
    ensures keys { keys_by roster.new ≡ keys_by roster.old }
{
    for index in 0..heard.len() {
        if let Some((observer, asks)) = heard.get_index(index) {
            if let Err(error) = push_record_of(roster, *observer, *asks, mutation, alloc) {
                take_back(roster, heard, index);
                return Err(error);
            }
        }
    }
    Ok(())
}

// Appends a record of the mutation to the queue of each interested observer, and adds these observers to the pending list in order. After an error
// no queue has changed, and nor has the list.
fn queue_for_several(
    roster: &mut Roster,
    pending: &mut IndexSet<ObserverId>,
    heard: &IndexMap<u32, bool>,
    mutation: &Mutation<'_>,
    alloc: Global,
) -> Result<(), AllocError>
    requires unique { IsUnique nat_eq heard.now }
    requires there { AllThere (is_there roster.old) (keys_of heard.now.entries) }
    ensures told { OnOk result ((p : ℕ) → records_of roster.new p
        ≡ records_of roster.old p ++ delivered mutation.now (get nat_eq heard.now p)) }
    ensures pending { OnOk result (pending.new.keys
        ≡ with_all_last pending.old.keys (keys_of heard.now.entries)) }
    ensures err { OnErr result (queues_by roster.new ≡ queues_by roster.old) }
    ensures err_pending { OnErr result (pending.new.keys ≡ pending.old.keys) }
    ensures keys { keys_by roster.new ≡ keys_by roster.old }
{
    pending.reserve(heard.len())?;
    queue_for_each(roster, heard, mutation, alloc)?;
    mark_each(pending, heard);
    Ok(())
}

// Appends a record of the mutation to the queue of each interested observer by the registrations under the keys, and adds these observers to the
// pending list in order. After an error no queue has changed, and nor has the list.
//
// A single interested observer, the usual case, is found by a scan without a map. There is room then for all pending observers among those that are
// not told, so that a record can be taken back without memory.
pub(crate) fn queue_for_interested(
    registrations: &Registrations,
    standing: &[usize],
    roster: &mut Roster,
    pending: &mut IndexSet<ObserverId>,
    untold: &mut IndexSet<ObserverId>,
    mutation: &Mutation<'_>,
    alloc: Global,
) -> Result<(), AllocError>
    requires { AllByRecursion (HasRegistration (at registrations.now) (is_there roster.old)) standing.now }
    ensures told { OnOk result ((p : ℕ) → records_of roster.new p
        ≡ records_of roster.old p ++ delivered mutation.now
        (flag_of p (listeners_to (at registrations.now) mutation.now standing.now))) }
    ensures pending { OnOk result (pending.new.keys
        ≡ with_all_last pending.old.keys (keys_of (listeners_to (at registrations.now) mutation.now
        standing.now))) }
    ensures stay { (p : ℕ) → among p pending.old.keys ≡ true → among p pending.new.keys ≡ true }
    ensures there { (p : ℕ → Bool) → AllByRecursion (HasRegistration (at registrations.now) p) standing.now →
        AllThere p pending.old.keys → AllThere p pending.new.keys }
    ensures others { (p : ℕ) → among p pending.new.keys ≡ false →
        records_of roster.new p ≡ records_of roster.old p }
    ensures err { OnErr result (queues_by roster.new ≡ queues_by roster.old) }
    ensures err_pending { OnErr result (pending.new.keys ≡ pending.old.keys) }
    ensures names { RecordsNameOnly (nodes_of_mutation mutation.now) (queues_by roster.old)
        (queues_by roster.new) }
    ensures keys { keys_by roster.new ≡ keys_by roster.old }
    ensures untold { untold.new.keys ≡ untold.old.keys }
    ensures room { length pending.old.keys ≤ spare untold.old →
        length pending.new.keys ≤ spare untold.new }
{
    untold.reserve(pending.len() + standing.len())?;
    let question = mutation.question();
    if let Some(listener) = only_listener(registrations, standing, &question) {
        return queue_for_one(roster, pending, listener, mutation, alloc);
    }
    let heard = find_interested(registrations, standing, &question, alloc)?;
    queue_for_several(roster, pending, &heard, mutation, alloc)
}
