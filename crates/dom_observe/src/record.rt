//! Mutations, and the records that observers receive (DOM Standard, "Interface MutationRecord").

ghost use Rattle.std.specs.Prelude.{◌≡◌, IfOk, None, if◌then◌else◌};
ghost use Rattle.dom_model.specs.MutationObservers.Records.{record_with};
ghost use Rattle.dom_observe.specs.Names.{name_of, given_name};

use crate::observer_id::ObserverId;
use crate::registration::Question;
use dom_model::RecordType;
use dom_tree::NodeId;
use dom_units::Units;
use std::alloc::{AllocError, Global};
use std::marker::Model;

/// A record of a mutation; `what` is its type.
#[derive(Debug, Drop)]
pub struct Record {
    pub what: RecordType,
    pub target: NodeId,
    pub added: Vec<NodeId>,
    pub removed: Vec<NodeId>,
    pub previous: Option<NodeId>,
    pub next: Option<NodeId>,
    pub name: Option<String>,
    pub old_value: Option<Units>,
}

impl Model for Record {
    ghost use Rattle.dom_model.specs.MutationObservers.Record.{Record as PlainRecord};
    ghost use Rattle.dom_observe.specs.Names.{name_of};

    ghost Value = { PlainRecord };

    ghost view = { λ r. record {
      type = r.what;
      target = r.target;
      added = r.added.items;
      removed = r.removed.items;
      previous = r.previous;
      next = r.next;
      name = name_of r.name;
      old_value = r.old_value;
    } };
}

/// An observer, and the records that it receives.
#[derive(Debug, Drop)]
pub struct Notification {
    pub observer: ObserverId,
    pub records: Vec<Record>,
}

impl Model for Notification {
    ghost use Rattle.dom_model.specs.MutationObservers.Record.{Notification as PlainTold};

    ghost Value = { PlainTold };

    ghost view = { λ t. record {
      observer = t.observer;
      records = t.records.items;
    } };
}

/// A change of the tree; `what` is the type of its records.
///
/// Borrows its lists and texts: they are copied into records, and only for interested observers. In contracts it has no registrations: those are
/// looked up when it is queued.
#[derive(Debug, Drop)]
pub struct Mutation<'a> {
    pub what: RecordType,
    pub target: NodeId,
    pub added: &'a [NodeId],
    pub removed: &'a [NodeId],
    pub previous: Option<NodeId>,
    pub next: Option<NodeId>,
    pub name: Option<&'a str>,
    pub old_value: Option<&'a [u16]>,
}

impl<'a> Model for Mutation<'a> {
    ghost use Rattle.std.specs.Prelude.{[]};
    ghost use Rattle.dom_model.specs.Worlds.World.{Mutation as PlainMutation};
    ghost use Rattle.dom_observe.specs.Names.{given_name};

    ghost Value = { PlainMutation };

    ghost view = { λ m. record {
      type = m.what;
      target = m.target;
      name = given_name m.name;
      old_value = given_name m.old_value;
      added = m.added.now;
      removed = m.removed.now;
      previous = m.previous;
      next = m.next;
      standing = [];
    } };
}

// Copies a name.
fn copied_name(alloc: Global, name: Option<&str>) -> Result<Option<String>, AllocError>
    ensures { IfOk result (λ copy. name_of copy ≡ given_name name.entry) }
{
    match name {
        None => Ok(None),
        Some(name) => Ok(Some(String::from_str(alloc, name)?)),
    }
}

// Copies a value, if it is asked for.
fn copied_value(
    alloc: Global,
    value: Option<&[u16]>,
    asked: bool,
) -> Result<Option<Units>, AllocError>
    ensures { IfOk result (λ copy. copy ≡ (if asked then given_name value.entry else None)) }
{
    if !asked {
        return Ok(None);
    }
    match value {
        None => Ok(None),
        Some(value) => Ok(Some(Units::from_units(alloc, value)?)),
    }
}

impl Mutation<'_> {
    // Returns a record of it, with the old value if that is asked for.
    #[inline(always)]
    pub(crate) fn record(&self, alloc: Global, with_old_value: bool) -> Result<Record, AllocError>
        ensures { IfOk result (λ made. made ≡ record_with self.now (if with_old_value
            then self.now.old_value else None)) }
    {
        let name = copied_name(alloc, self.name)?;
        let old_value = copied_value(alloc, self.old_value, with_old_value)?;
        let added = Vec::from_slice(alloc, self.added)?;
        let removed = Vec::from_slice(alloc, self.removed)?;
        Ok(Record {
            what: self.what,
            target: self.target,
            added,
            removed,
            previous: self.previous,
            next: self.next,
            name,
            old_value,
        })
    }

    // Returns the query for registrations at its target's ancestors.
    pub(crate) fn question(&self) -> Question<'_>
        ensures what { result.what ≡ self.now.type }
        ensures target { result.target ≡ self.now.target }
        ensures name { given_name result.name ≡ self.now.name }
    {
        Question {
            what: self.what,
            target: self.target,
            name: self.name,
        }
    }
}
