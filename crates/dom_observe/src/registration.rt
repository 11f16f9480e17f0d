//! Registered observers, and which of them a step ends (DOM Standard, "registered observer", "transient registered observer").

ghost use Rattle.std.specs.Prelude.{◌≡◌, Some, IfOk, option_map, is_none, is_some, not, ◌==◌, ◌||◌, ◌&&◌};
ghost use Rattle.dom_model.specs.PlainLists.Lists.{is_number};
ghost use Rattle.dom_model.specs.MutationObservers.Records.{type_passes, asks_old_value};
ghost use Rattle.dom_observe.specs.Names.{given_name};

use crate::filter::Interests;
use crate::observer_id::ObserverId;
use dom_model::RecordType;
use dom_tree::NodeId;
use std::alloc::AllocError;
use std::rc::Rc;

// An observer on a node; a transient registration has the node of its source, and shares the options of the one that it comes from.
#[derive(Debug, Drop)]
pub struct Registration {
    pub node: NodeId,
    pub observer: ObserverId,
    pub options: Rc<Interests>,
    pub source: Option<NodeId>,
    // higher than those of the registrations that came in on the node before it; given as it comes in
    pub turn: u64,
}

// Which registrations a step ends.
#[derive(Clone, Copy, Debug)]
pub enum EndedRegistrations {
    // every transient one
    Transient,
    // all of an observer
    Of(ObserverId),
    // the transient ones of an observer that come from its registration on a node
    From(ObserverId, NodeId),
    // the transient ones of an observer
    TransientOf(ObserverId),
}

// Whether registrations last, or are transient ones.
#[derive(Clone, Copy, Debug)]
pub enum Lifetime {
    Lasting,
    Passing,
}

// Which registrations of an observer, or of every one where none is named, end: those of a lifetime that a step does not leave.
#[derive(Clone, Copy, Debug)]
pub struct Ending {
    pub observer: Option<ObserverId>,
    pub lifetime: Lifetime,
    pub ended: EndedRegistrations,
}

// What is asked of the registrations that stand above a target.
#[derive(Clone, Copy, Debug)]
pub struct Question<'a> {
    pub what: RecordType,
    pub target: NodeId,
    pub name: Option<&'a str>,
}

impl Registration {
    ghost use Rattle.dom_model.specs.MutationObservers.Records.{is_registered, is_transient_from};
    ghost use Rattle.dom_model.specs.MutationObservers.Observing.{transient_of};
    ghost use Rattle.dom_observe.specs.Registrations.{plain, concerns, is_by, origin};

    // Whether it is the observer's on the node, and not a transient one.
    pub fn is_own(&self, observer: ObserverId, node: NodeId) -> bool
        ensures { result ≡ is_registered observer node (plain self.now) }
    {
        self.observer == observer && (self.node == node && self.source.is_none())
    }

    // Whether it is a transient one of the observer that comes from the node.
    pub fn is_from(&self, observer: ObserverId, node: NodeId) -> bool
        ensures { result ≡ is_transient_from observer node (plain self.now) }
    {
        self.observer == observer && self.source == Some(node)
    }

    // Whether it is the observer's; where none is named, it is.
    pub fn is_by(&self, observer: Option<ObserverId>) -> bool
        ensures { result ≡ is_by observer (plain self.now) }
    {
        match observer {
            Some(observer) => self.observer == observer,
            None => true,
        }
    }

    // The node that it comes from: its source, or its own.
    pub fn origin(&self) -> NodeId
        ensures { result ≡ origin (plain self.now) }
    {
        self.source.unwrap_or(self.node)
    }

    // Whether a mutation interests its observer by it.
    pub fn concerns(&self, question: &Question<'_>) -> bool
        ensures { result ≡ concerns question.now.what question.now.target
            (given_name question.now.name) (plain self.now) }
    {
        (self.node == question.target || self.options.subtree())
            && self.options.asks(question.what, question.name)
    }

    // The transient registration that a node gets from it.
    pub fn transient(&self, node: NodeId) -> Result<Registration, AllocError>
        ensures { IfOk result (λ made. plain made ≡ transient_of node (plain self.now)) }
    {
        let options = self.options.clone()?;
        Ok(Registration {
            node,
            observer: self.observer,
            options,
            source: Some(self.origin()),
            turn: 0,
        })
    }
}

impl EndedRegistrations {
    ghost use Rattle.dom_observe.specs.Registrations.{plain, spares};

    // Whether the step leaves the registration.
    pub fn spares(&self, registration: &Registration) -> bool
        ensures { result ≡ spares self.now (plain registration.now) }
    {
        match *self {
            EndedRegistrations::Transient => registration.source.is_none(),
            EndedRegistrations::Of(observer) => registration.observer != observer,
            EndedRegistrations::From(observer, node) => !registration.is_from(observer, node),
            EndedRegistrations::TransientOf(observer) => {
                !(registration.observer == observer && registration.source.is_some())
            }
        }
    }
}

impl Lifetime {
    ghost use Rattle.dom_observe.specs.Registrations.{plain, of_kind};

    // Whether the registration is the observer's, where one is named, and of this lifetime.
    fn is_of(self, observer: Option<ObserverId>, registration: &Registration) -> bool
        ensures { result ≡ of_kind self observer (Some (plain registration.now)) }
    {
        match self {
            Lifetime::Lasting => registration.is_by(observer) && registration.source.is_none(),
            Lifetime::Passing => registration.is_by(observer) && registration.source.is_some(),
        }
    }
}

impl Ending {
    ghost use Rattle.dom_observe.specs.Registrations.{plain, goes};

    // Whether the registration ends.
    pub fn ends(&self, registration: &Registration) -> bool
        ensures { result ≡ goes self.now (Some (plain registration.now)) }
    {
        self.lifetime.is_of(self.observer, registration) && !self.ended.spares(registration)
    }
}
