//! The commands of a session, in groups: one for each name of the table, and four without a line, which release objects.

use dom_model::Move;
use dom_observe::{ObserverId, RawOptions};
use dom_point::Point;
use dom_ranges::{RangeId, StaticId};
use dom_traverse::{Filter, IteratorId, WalkerId};
use dom_tree::NodeId;
use dom_units::Units;

/// A command that makes a node.
#[derive(Drop)]
pub enum Making {
    /// Makes a Document.
    NewDocument,
    /// Makes an Element of that name.
    CreateElement(NodeId, String),
    /// Makes a Text of that data.
    CreateText(NodeId, Units),
    /// Makes a Comment of that data.
    CreateComment(NodeId, Units),
    /// Makes a ProcessingInstruction of that target and data.
    CreatePI(NodeId, String, Units),
    /// Makes a DocumentType of that name, with its public and its system id.
    CreateDoctype(NodeId, String, String, String),
    /// Makes a DocumentFragment.
    CreateFragment(NodeId),
}

/// An edit of the tree.
#[derive(Drop)]
pub enum Editing {
    /// Inserts the second node into the first, before a child or last.
    InsertBefore(NodeId, NodeId, Option<NodeId>),
    /// Appends the second node to the children of the first.
    AppendChild(NodeId, NodeId),
    /// Adopts a node into a document.
    AdoptNode(NodeId, NodeId),
    /// Replaces the third node, a child of the first, by the second.
    ReplaceChild(NodeId, NodeId, NodeId),
    /// Removes a child.
    RemoveChild(NodeId, NodeId),
    /// Removes a node from its parent, if it has one.
    Remove(NodeId),
    /// Replaces all children by a node, or by none.
    ReplaceChildren(NodeId, Option<NodeId>),
    /// Frees a node and its descendants.
    Discard(NodeId),
}

/// A question about a node.
#[derive(Drop)]
pub enum Asking {
    /// Returns a node's kind and its place in the tree.
    DescribeNode(NodeId),
    /// The children of a node.
    Children(NodeId),
    /// The number of siblings before a node.
    Index(NodeId),
    /// The length of a node.
    Length(NodeId),
    /// The root of a node.
    Root(NodeId),
    /// Prints a node and its descendants.
    Tree(NodeId),
}

/// A command that makes, reads or releases a live range.
#[derive(Drop)]
pub enum Ranging {
    /// Makes a live range at the start of a document.
    CreateRange(NodeId),
    /// Makes a live range with the ends of another.
    CloneRange(RangeId),
    /// The ends of a live range.
    DescribeRange(RangeId),
    /// Releases a live range.
    ReleaseRange(RangeId),
}

/// A command that sets the ends of a live range.
#[derive(Drop)]
pub enum Setting {
    /// Sets the start.
    SetStart(RangeId, NodeId, u32),
    /// Sets the end.
    SetEnd(RangeId, NodeId, u32),
    /// Sets the start before a node.
    SetStartBefore(RangeId, NodeId),
    /// Sets the start after a node.
    SetStartAfter(RangeId, NodeId),
    /// Sets the end before a node.
    SetEndBefore(RangeId, NodeId),
    /// Sets the end after a node.
    SetEndAfter(RangeId, NodeId),
    /// Moves one end to the other: the end to the start, or the start to the end.
    Collapse(RangeId, bool),
    /// Sets the ends around a node.
    SelectNode(RangeId, NodeId),
    /// Sets the ends around the contents of a node.
    SelectNodeContents(RangeId, NodeId),
}

/// A question about a live range.
#[derive(Drop)]
pub enum Comparing {
    /// Compares an end of the first range with one of the second; `how` is 0 to 3.
    CompareBoundaryPoints(RangeId, u32, RangeId),
    /// Whether a point is before, in or after a range.
    ComparePoint(RangeId, NodeId, u32),
    /// Whether a point is in a range.
    IsPointInRange(RangeId, NodeId, u32),
    /// Whether a range intersects a node.
    IntersectsNode(RangeId, NodeId),
    /// The deepest inclusive ancestor of both ends.
    CommonAncestor(RangeId),
}

/// A command that makes, reads or releases a static range.
#[derive(Drop)]
pub enum StaticRanging {
    /// Makes a static range.
    CreateStaticRange(Point, Point),
    /// The ends of a static range, and whether it is valid.
    DescribeStaticRange(StaticId),
    /// Releases a static range.
    ReleaseStaticRange(StaticId),
}

/// A question that takes no memory, so a session answers it after its end too.
#[derive(Drop)]
pub enum Reading {
    /// The number of siblings before a node.
    Index(NodeId),
    /// The length of a node.
    Length(NodeId),
    /// The root of a node.
    Root(NodeId),
    /// The start and the end of a live range.
    Range(RangeId),
    /// The start and the end of a static range, and whether it is valid.
    StaticRange(StaticId),
    /// The position of an iterator.
    Iterator(IteratorId),
    /// The current node of a walker.
    Walker(WalkerId),
}

/// A command on an iterator or a walker.
#[derive(Drop)]
pub enum Traversing {
    /// Makes a node iterator.
    CreateIterator(NodeId, Filter),
    /// Makes a tree walker.
    CreateWalker(NodeId, Filter),
    /// Returns the position of an iterator.
    DescribeIterator(IteratorId),
    /// Moves an iterator on.
    NextNode(IteratorId),
    /// Moves an iterator back.
    PreviousNode(IteratorId),
    /// Returns the current node of a walker.
    DescribeWalker(WalkerId),
    /// Sets a walker on a node.
    SetCurrent(WalkerId, NodeId),
    /// Moves a walker.
    Walk(WalkerId, Move),
    /// Releases an iterator.
    ReleaseIterator(IteratorId),
    /// Releases a walker.
    ReleaseWalker(WalkerId),
}

/// A command on an observer.
#[derive(Drop)]
pub enum Observing {
    /// Makes a mutation observer.
    CreateObserver,
    /// Registers an observer at a node.
    Observe(ObserverId, NodeId, RawOptions),
    /// Removes all registrations and records of an observer.
    Disconnect(ObserverId),
    /// Takes the records of an observer.
    TakeRecords(ObserverId),
    /// Gives each pending observer its records.
    Notify,
    /// The pending observers.
    Pending,
    /// Releases an observer, with its registrations and queued records.
    ReleaseObserver(ObserverId),
    /// Takes the pending observers, in the order in which each is to be notified. None is pending afterwards.
    TakePending,
    /// Notifies an observer in its turn: takes its records, and removes its transient registrations.
    TellObserver(ObserverId),
}

/// A command on data or text.
#[derive(Drop)]
pub enum Texts {
    /// Joins adjacent Text nodes below a node, and removes empty ones.
    Normalize(NodeId),
    /// The text in a node.
    TextContent(NodeId),
    /// Replaces the contents of a node by a text.
    SetTextContent(NodeId, Units),
    /// The data of a node.
    GetData(NodeId),
    /// Sets the data of a node.
    SetData(NodeId, Units),
    /// Appends to the data of a node.
    AppendData(NodeId, Units),
    /// Inserts at an offset.
    InsertData(NodeId, u32, Units),
    /// Deletes a number of units from an offset on.
    DeleteData(NodeId, u32, u32),
    /// Replaces a number of units from an offset on by a text.
    ReplaceData(NodeId, u32, u32, Units),
    /// A number of units from an offset on.
    SubstringData(NodeId, u32, u32),
    /// Splits a Text at an offset.
    SplitText(NodeId, u32),
}

/// A command on an attribute.
#[derive(Drop)]
pub enum Attributes {
    /// Sets an attribute.
    SetAttribute(NodeId, String, Units),
    /// The value of an attribute.
    GetAttribute(NodeId, String),
    /// Whether there is an attribute of that name.
    HasAttribute(NodeId, String),
    /// Removes an attribute.
    RemoveAttribute(NodeId, String),
    /// Adds or removes an attribute; with `force` only that one of both.
    ToggleAttribute(NodeId, String, Option<bool>),
    /// The names of the attributes, in order.
    AttributeNames(NodeId),
}

/// A command that copies or compares nodes.
#[derive(Drop)]
pub enum Copying {
    /// A copy of a node for another document, with or without its descendants.
    ImportNode(NodeId, NodeId, bool),
    /// A copy of a node, with or without its descendants.
    CloneNode(NodeId, bool),
    /// Whether the second is an inclusive descendant of the first.
    IsContaining(NodeId, Option<NodeId>),
    /// Whether both nodes are equal.
    IsEqual(NodeId, Option<NodeId>),
    /// The position of the second relative to the first.
    ComparePosition(NodeId, NodeId),
}

/// A command on the contents of a live range.
#[derive(Drop)]
pub enum Contents {
    /// The text in a range.
    RangeText(RangeId),
    /// Deletes the contents of a range.
    DeleteContents(RangeId),
    /// Moves the contents of a range into a fragment.
    ExtractContents(RangeId),
    /// Copies the contents of a range into a fragment.
    CloneContents(RangeId),
    /// Inserts a node at the start of a range.
    InsertNode(RangeId, NodeId),
    /// Moves the contents of a range into a node, and inserts the node in their place.
    SurroundContents(RangeId, NodeId),
}

/// A command, with its arguments read: each group of commands is a type of its own.
#[derive(Drop)]
pub enum Command {
    /// Makes a node.
    Making(Making),
    /// Edits the tree.
    Editing(Editing),
    /// Asks about a node.
    Asking(Asking),
    /// Makes, reads or releases a live range.
    Ranging(Ranging),
    /// Sets the ends of a live range.
    Setting(Setting),
    /// Asks about a live range.
    Comparing(Comparing),
    /// Makes, reads or releases a static range.
    StaticRanging(StaticRanging),
    /// Makes, reads, moves or releases an iterator or a walker.
    Traversing(Traversing),
    /// Acts on observers.
    Observing(Observing),
    /// Reads or changes data or text.
    Texts(Texts),
    /// Reads or changes attributes.
    Attributes(Attributes),
    /// Copies or compares nodes.
    Copying(Copying),
    /// Acts on the contents of a live range.
    Contents(Contents),
}
