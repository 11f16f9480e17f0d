//! The commands of a session, and its replies.
//!
//! A [`Command`] is a group and one of its commands. A [`Reply`] is a [`Brief`], or an [`Answer`] of another shape.
#![tactic(auto)]

mod brief;
mod command;
mod reply;

pub use brief::Brief;
pub use command::{
    Asking, Attributes, Command, Comparing, Contents, Copying, Editing, Making, Observing, Ranging,
    Reading, Setting, StaticRanging, Texts, Traversing,
};
pub use dom_kinds::{DomError, Kind, Label};
pub use dom_model::{Move, OwnError, RecordType, Verdict};
pub use dom_observe::{Notification, ObserverId, RawOptions, Record};
pub use dom_payload::Content;
pub use dom_point::Point;
pub use dom_ranges::{RangeId, StaticId};
pub use dom_traverse::{Filter, IteratorId, Rule, WalkerId};
pub use dom_tree::NodeId;
pub use dom_units::{Units, text_of};
pub use reply::{Answer, Description, Reply, TreeRow};
