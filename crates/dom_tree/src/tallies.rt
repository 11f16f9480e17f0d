//! The number of elements and of doctypes among the children of each Document.

ghost use Rattle.std.specs.Prelude.{◌≡◌, ℕ, None, [], option_map};
ghost use Rattle.dom_model.specs.Forests.Kinds.{is_kind};
ghost use Rattle.dom_tree.specs.Tallies.{tally_in, tally_but, one, raised, lowered, AreStarted};

use crate::node_id::NodeId;
use dom_kinds::Kind;
use dom_links::Slot;
use indexmap::IndexMap;
use std::alloc::{AllocError, Global};
use std::marker::Model;

/// The number of elements and of doctypes among the children of a node.
#[derive(Clone, Copy)]
pub(crate) struct Tally {
    pub(crate) elements: u32,
    pub(crate) doctypes: u32,
}

const BARE: Tally = Tally {
    elements: 0,
    doctypes: 0,
};

/// The element and the doctype that were inserted last into a node. Either may have left it since.
#[derive(Clone, Copy)]
struct Latest {
    element: Option<NodeId>,
    doctype: Option<NodeId>,
}

const NONE_YET: Latest = Latest {
    element: None,
    doctype: None,
};

/// The tallies of all Documents, by slot.
///
/// `latest` names the children that were inserted last. They may have left, so a caller has to check where they stand.
#[derive(Drop)]
pub(crate) struct Tallies {
    by_slot: IndexMap<usize, Tally>,
    latest: IndexMap<usize, Latest>,
}

impl Model for Tallies {
    ghost use Rattle.std.specs.Prelude.{ℕ, List};
    ghost use Rattle.dom_tree.specs.declared.tallies.Tally.{Tally};

    ghost Value = { List (ℕ × Tally) };

    ghost view = { λ t. t.by_slot.entries };
}

// Returns 1 if a kind is the counted one, otherwise 0.
fn one(counted: Kind, kind: Kind) -> u32
    ensures { result ≡ one (is_kind counted kind) }
{
    if counted == kind { 1 } else { 0 }
}

// Counts one child more of a kind.
fn raise(tally: &mut Tally, kind: Kind)
    ensures { tally.new ≡ raised (λ counted. is_kind counted kind) tally.old }
{
    tally.elements = tally.elements.saturating_add(one(Kind::Element, kind));
    tally.doctypes = tally.doctypes.saturating_add(one(Kind::DocumentType, kind));
}

// Counts one child less of a kind.
fn lower(tally: &mut Tally, kind: Kind)
    ensures { tally.new ≡ lowered (λ counted. is_kind counted kind) tally.old }
{
    tally.elements = tally.elements.saturating_sub(one(Kind::Element, kind));
    tally.doctypes = tally.doctypes.saturating_sub(one(Kind::DocumentType, kind));
}

// Keeps a child as the latest of its kind.
fn set_latest(latest: &mut Latest, kind: Kind, child: NodeId) {
    match kind {
        Kind::Element => latest.element = Some(child),
        Kind::DocumentType => latest.doctype = Some(child),
        _ => {}
    }
}

impl Tallies {
    /// Returns an empty table. It takes no memory.
    pub(crate) fn new(alloc: Global) -> Tallies
        ensures { result ≡ [] }
    {
        Tallies {
            by_slot: IndexMap::new(alloc),
            latest: IndexMap::new(alloc),
        }
    }

    /// Returns the tally of a parent, if it has one.
    pub(crate) fn get(&self, parent: Slot) -> Option<Tally>
        ensures { result ≡ tally_in self.now parent }
    {
        self.by_slot.get(&parent.number()).copied()
    }

    /// Reserves room for one more node of a kind.
    pub(crate) fn reserve(&mut self, kind: Kind) -> Result<(), AllocError>
        ensures { self.new ≡ self.old }
    {
        if kind == Kind::Document {
            self.by_slot.reserve(1)?;
            self.latest.reserve(1)?;
        }
        Ok(())
    }

    /// Starts the tally of a node without children, if it is a Document and there is room.
    pub(crate) fn start(&mut self, parent: Slot, kind: Kind)
        ensures { AreStarted parent kind self.old self.new }
    {
        if kind == Kind::Document {
            let _ = self.by_slot.insert(parent.number(), BARE);
            let _ = self.latest.insert(parent.number(), NONE_YET);
        }
    }

    /// Counts one child more of a parent.
    pub(crate) fn raise(&mut self, parent: Slot, kind: Kind)
        ensures { (p : ℕ) → tally_in self.new p ≡ tally_but parent
            (option_map (raised (λ counted. is_kind counted kind)) (tally_in self.old parent))
            self.old p }
    {
        if let Some(tally) = self.by_slot.get_mut(&parent.number()) {
            raise(tally, kind);
        }
    }

    /// Counts one child less of a parent.
    pub(crate) fn lower(&mut self, parent: Slot, kind: Kind)
        ensures { (p : ℕ) → tally_in self.new p ≡ tally_but parent
            (option_map (lowered (λ counted. is_kind counted kind)) (tally_in self.old parent))
            self.old p }
    {
        if let Some(tally) = self.by_slot.get_mut(&parent.number()) {
            lower(tally, kind);
        }
    }

    /// Removes the tally of a parent.
    pub(crate) fn remove(&mut self, parent: Slot)
        ensures { (p : ℕ) → tally_in self.new p ≡ tally_but parent None self.old p }
    {
        let _ = self.by_slot.swap_remove(&parent.number());
        let _ = self.latest.swap_remove(&parent.number());
    }

    /// Keeps a child as the one that was inserted last into a parent, if it is an element or a doctype.
    pub(crate) fn note(&mut self, parent: Slot, kind: Kind, child: NodeId)
        ensures { self.new ≡ self.old }
    {
        if let Some(latest) = self.latest.get_mut(&parent.number()) {
            set_latest(latest, kind, child);
        }
    }

    /// Returns the element or the doctype that was inserted last into a parent, if there was one.
    pub(crate) fn latest(&self, parent: Slot, kind: Kind) -> Option<NodeId> {
        let latest = self.latest.get(&parent.number())?;
        match kind {
            Kind::Element => latest.element,
            Kind::DocumentType => latest.doctype,
            _ => None,
        }
    }
}
