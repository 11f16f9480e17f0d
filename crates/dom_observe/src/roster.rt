//! What is kept of each observer, for as long as it is there.

ghost use Rattle.std.specs.Prelude.{◌≡◌, ◌<◌, ◌++◌, ◌∷◌, [], length, count_by, Some, None, IsSome, is_some, IfOk, OnOk, OnErr, slice_set};
ghost use Rattle.std.specs.Borrow.{sem};
ghost use Rattle.dom_observe.specs.Roster.{observer_at, keys_by, queues_by};
ghost use Rattle.dom_observe.specs.Borrows.{lends_observer};

use crate::observer_id::ObserverId;
use crate::queue::Queue;
use dom_slots::NumberedItems;
use std::alloc::{AllocError, Global};
use std::marker::Model;

// The keys of an observer's registrations that last, and of its transient ones; and its queue.
#[derive(Drop)]
pub struct Observer {
    pub lasting: Vec<usize>,
    // by the numbers of the nodes that the registrations come from
    pub passing: Vec<usize>,
    pub queue: Queue,
}

impl Observer {
    // With no registration, and no record. It takes no memory.
    fn new(alloc: Global) -> Observer
        ensures lasting { result.lasting.items ≡ [] }
        ensures passing { result.passing.items ≡ [] }
        ensures queue { result.queue.records ≡ [] }
    {
        Observer {
            lasting: Vec::new(alloc),
            passing: Vec::new(alloc),
            queue: Queue::new(alloc),
        }
    }
}

// The observers by their numbers. One that is released takes no memory any more.
#[derive(Drop)]
pub struct Roster {
    kept: NumberedItems<Observer>,
}

impl Model for Roster {
    ghost use Rattle.std.specs.Prelude.{List, Option};
    ghost use Rattle.dom_slots.specs.Slotted.{by_slot};
    ghost use Rattle.dom_observe.specs.declared.roster.Observer.{Observer};

    ghost Value = { List (Option Observer) };

    ghost view = { λ r. by_slot r.kept.slots r.kept.items };
}

impl Roster {
    // No observer.
    pub fn new(alloc: Global) -> Roster
        ensures { result ≡ [] }
    {
        Roster {
            kept: NumberedItems::new(alloc),
        }
    }

    // How many were made.
    pub fn made(&self) -> usize
        ensures { result ≡ length self.now }
    {
        self.kept.made() as usize
    }

    // How many are there.
    pub fn count(&self) -> usize
        ensures { result ≡ count_by is_some self.now }
    {
        self.kept.count()
    }

    // Whether an observer is there.
    pub fn holds(&self, observer: ObserverId) -> bool
        ensures { result ≡ is_some (observer_at self.now observer) }
    {
        self.kept.holds(observer.number())
    }

    // What is kept of an observer.
    pub fn get(&self, observer: ObserverId) -> &Observer
        requires { IsSome (observer_at self.now observer) }
        ensures { observer_at self.now observer ≡ Some result.now }
    {
        self.kept.get(observer.number()).unwrap()
    }

    // The same, to be changed.
    pub fn get_mut(&mut self, observer: ObserverId) -> &mut Observer
        requires { IsSome (observer_at self.old observer) }
        ensures* writes_back { sem 𝓛 (lends_observer self.entry observer result) }
        ensures value { observer_at self.old observer ≡ Some result.now }
    {
        self.kept.state_law();
        let slot = self.kept.slot(observer.number()).unwrap();
        self.kept.in_slot_mut(slot)
    }

    // Makes an observer, with no registration and no record.
    pub fn make(&mut self, alloc: Global) -> Result<ObserverId, AllocError>
        requires room { length self.old < 4294967295 }
        ensures number { IfOk result (λ id. id ≡ length self.old) }
        ensures keys { OnOk result (keys_by self.new ≡ keys_by self.old ++ Some ([], []) ∷ []) }
        ensures queues { OnOk result (queues_by self.new ≡ queues_by self.old ++ Some [] ∷ []) }
        ensures err { OnErr result (self.new ≡ self.old) }
    {
        self.kept.reserve(1)?;
        let number = self.kept.push_reserved(Observer::new(alloc));
        Ok(ObserverId::new(number))
    }

    // Lets an observer go. It takes no memory.
    pub fn release(&mut self, observer: ObserverId)
        requires { IsSome (observer_at self.old observer) }
        ensures { self.new ≡ slice_set self.old observer None }
    {
        self.kept.release(observer.number());
    }
}
