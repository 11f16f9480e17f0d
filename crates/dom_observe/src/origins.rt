//! The origins of the transient registrations on a node, while it gets more of them.

ghost use Rattle.std.specs.Prelude.{◌≡◌, false, IfOk, OnOk};
ghost use Rattle.std.specs.Option.{option_map_or};
ghost use Rattle.std.specs.List.{list_any};
ghost use Rattle.dom_observe.specs.Registrations.{at, from_at};
ghost use Rattle.dom_observe.specs.Origins.{same_origin, Notes, NotesIfAny, AlsoNotes};

use crate::observer_id::ObserverId;
use crate::registrations::Registrations;
use dom_tree::NodeId;
use indexmap::IndexSet;
use std::alloc::{AllocError, Global};

// Up to so many questions are answered by going through the keys of the node.
const FEW: usize = 16;

// What a transient registration comes from: the observer's registration on the node of that number.
#[derive(Clone, Copy, Debug, PartialEq, Eq, Hash)]
struct Origin {
    observer: ObserverId,
    node: u32,
}

impl Origin {
    // That of an observer's registration on a node.
    fn new(observer: ObserverId, node: NodeId) -> Origin
        ensures { result ≡ record { observer = observer; node = node } }
    {
        Origin {
            observer,
            node: node.number(),
        }
    }
}

// The origins of the transient registrations under the keys of a node, noted where more than a few are asked for.
#[derive(Drop)]
pub(crate) struct Origins {
    noted: Option<IndexSet<Origin>>,
}

// The origin of the transient registration under a key.
fn origin_at(registrations: &Registrations, key: usize) -> Option<Origin>
    ensures { (origin : Origin) → option_map_or (same_origin origin) result false
        ≡ from_at (at registrations.now) origin.observer origin.node key }
{
    let registration = registrations.get(key)?;
    let source = registration.source?;
    Some(Origin::new(registration.observer, source))
}

// Notes the origins of the transient registrations under the keys.
fn note_all(
    registrations: &Registrations,
    own: &[usize],
    alloc: Global,
) -> Result<IndexSet<Origin>, AllocError>
    ensures { IfOk result (λ noted. Notes (at registrations.now) own.now noted) }
{
    let mut noted = IndexSet::new(alloc);
    for key in own {
        if let Some(origin) = origin_at(registrations, *key) {
            noted.insert(origin)?;
        }
    }
    Ok(noted)
}

// Whether a transient registration of an observer that comes from a node is under the key.
fn is_from(registrations: &Registrations, key: usize, observer: ObserverId, node: NodeId) -> bool
    ensures { result ≡ from_at (at registrations.now) observer node key }
{
    match registrations.get(key) {
        Some(registration) => registration.is_from(observer, node),
        None => false,
    }
}

// The same under one of several keys.
fn has_from(
    registrations: &Registrations,
    keys: &[usize],
    observer: ObserverId,
    node: NodeId,
) -> bool
    ensures { result ≡ list_any (from_at (at registrations.now) observer node) keys.now }
{
    keys.iter()
        .any(|key| is_from(registrations, *key, observer, node))
}

impl Origins {
    // Those under the keys of a node, of which so many are asked for.
    pub(crate) fn new(
        registrations: &Registrations,
        own: &[usize],
        asked: usize,
        alloc: Global,
    ) -> Result<Origins, AllocError>
        ensures { IfOk result (λ origins. NotesIfAny (at registrations.now) own.now origins.noted) }
    {
        let noted = if asked > FEW {
            Some(note_all(registrations, own, alloc)?)
        } else {
            None
        };
        Ok(Origins { noted })
    }

    // Whether a transient registration of an observer that comes from a node is among them.
    pub(crate) fn has(
        &self,
        registrations: &Registrations,
        own: &[usize],
        observer: ObserverId,
        node: NodeId,
    ) -> bool
        requires { NotesIfAny (at registrations.now) own.now self.now.noted }
        ensures { result ≡ list_any (from_at (at registrations.now) observer node) own.now }
    {
        match &self.noted {
            Some(noted) => noted.contains(&Origin::new(observer, node)),
            None => has_from(registrations, own, observer, node),
        }
    }

    // Notes one more.
    pub(crate) fn note(&mut self, observer: ObserverId, node: NodeId) -> Result<(), AllocError>
        ensures { OnOk result (AlsoNotes observer node self.old.noted self.new.noted) }
    {
        if let Some(noted) = &mut self.noted {
            noted.insert(Origin::new(observer, node))?;
        }
        Ok(())
    }
}
