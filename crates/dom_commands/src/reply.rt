//! The replies that a session gives.

use crate::brief::Brief;
use dom_kinds::Label;
use dom_observe::{Notification, Record};
use dom_payload::Content;
use dom_point::Point;
use dom_tree::NodeId;
use dom_units::Units;
use std::cmp::Ordering;
use std::marker::Model;

/// A node and its place: its node document, its label, its parent and its siblings.
#[derive(Drop)]
pub struct Description {
    pub document: NodeId,
    pub label: Label,
    pub next: Option<NodeId>,
    pub parent: Option<NodeId>,
    pub previous: Option<NodeId>,
}

impl Model for Description {
    ghost use Rattle.dom_model.specs.Commands.Reply.{Description};

    ghost Value = { Description };

    ghost view = { λ d. record { document = d.document; label = d.label; next = d.next; parent = d.parent; previous = d.previous } };
}

/// A row of a printed tree: the node's depth below the printed root, and its label.
#[derive(Drop)]
pub struct TreeRow {
    pub depth: usize,
    pub number: NodeId,
    pub label: Label,
    pub body: Content,
}

impl Model for TreeRow {
    ghost use Rattle.dom_model.specs.Commands.Reply.{TreeRow};

    ghost Value = { TreeRow };

    ghost view = { λ r. record { depth = r.depth; number = r.number; label = r.label; body = r.body } };
}

/// An answer that a `Brief` cannot have, one variant for each shape.
#[derive(Drop)]
pub enum Answer {
    /// An index or a length.
    Count(usize),
    /// The numbers of objects, in order.
    Numbers(Vec<u32>),
    /// True or false.
    Flag(bool),
    /// The relative position of two places.
    Order(Ordering),
    /// A text.
    Units(Units),
    /// A text, if there is one.
    MaybeUnits(Option<Units>),
    /// Names, in order.
    Names(Vec<String>),
    /// A node and its place. It is boxed, so that other answers are small.
    NodeAt(Box<Description>),
    /// A printed tree, in tree order.
    Rows(Vec<TreeRow>),
    /// The start and the end of a live range.
    Ends(Point, Point),
    /// The start and the end of a static range, and whether it is valid.
    StaticEnds(Point, Point, bool),
    /// The root and the reference of an iterator, and whether its pointer is before the reference.
    IteratorAt(NodeId, NodeId, bool),
    /// The root and the current node of a walker.
    WalkerAt(NodeId, NodeId),
    /// The records that were taken.
    Records(Vec<Record>),
    /// The notified observers, each with its records.
    Notified(Vec<Notification>),
}

/// The reply to a command.
#[derive(Drop)]
pub enum Reply {
    /// A small answer, or a refusal.
    Brief(Brief),
    Done(Answer),
}
