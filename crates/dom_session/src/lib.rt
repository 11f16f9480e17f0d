//! A session: commands in, replies out, over one world of nodes.
//!
//! [`Session::apply`] answers each [`Command`] with a [`Reply`]; the calls for one group of commands, or for one, answer a [`Brief`].
//! A question of one command, [`Session::has_attribute`], answers a `Reply`.
//! What stands around a node ([`Neighbours`]) and how many objects there are ([`Counts`]) are read with no command, also once the
//! session has ended.
#![tactic(auto)]

mod attributes;
mod borrowed_data;
mod character_data;
mod copies;
mod dispatch;
mod going_on;
mod in_use;
pub mod laws;
mod live_ranges;
mod neighbours;
mod node_creation;
mod node_queries;
mod observers;
mod range_contents;
mod range_queries;
mod range_setters;
mod read_only;
mod refusals;
mod room;
mod session;
mod static_ranges;
mod steps;
mod subtree;
mod traversal;
mod tree_edits;
mod tree_rows;

pub use dom_commands::{
    Answer, Asking, Attributes, Brief, Command, Comparing, Content, Contents, Copying, Description,
    DomError, Editing, Filter, IteratorId, Kind, Label, Making, Move, NodeId, Notification,
    ObserverId, Observing, OwnError, Point, RangeId, Ranging, RawOptions, Reading, Record,
    RecordType, Reply, Rule, Setting, StaticId, StaticRanging, Texts, Traversing, TreeRow, Units,
    Verdict, WalkerId, text_of,
};
pub use in_use::Counts;
pub use neighbours::Neighbours;
pub use session::{Ended, Limits, OutOfMemory, Session};
pub use steps::StepsMade;
pub use subtree::{NodeRow, SubtreeNode, SubtreePart};
