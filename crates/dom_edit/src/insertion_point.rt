//! The element and doctype children of a Document, on both sides of an insertion point.

ghost use Rattle.std.specs.Prelude.{◌≡◌, ℕ, ◌||◌, [], ◌∷◌, IfSome};
ghost use Rattle.dom_model.specs.declared.Kind.TheVariants.{Element, DocumentType, DocumentFragment};
ghost use Rattle.dom_model.specs.PlainLists.Lists.{is_number};
ghost use Rattle.dom_model.specs.Forests.Forest.{HasNode, children_of};
ghost use Rattle.dom_model.specs.MutationAlgorithms.Checks.{has_kind, count_kind};
ghost use Rattle.dom_model.specs.Forests.Nodes.{is_of_kind};
ghost use Rattle.dom_edit.specs.InsertionPoints.{child_of, keeps_child, IsUnder, refuses, IsAmong, children_ahead, from_optional, count_around, IsFound, IsAround};

use dom_kinds::Kind;
use dom_payload::Content;
use dom_tree::{NodeId, Tree};

/// An insertion point: before a child, last, or in the place of a child.
#[derive(Clone, Copy)]
pub(crate) enum InsertionPoint {
    Before(Option<NodeId>),
    Instead(NodeId),
}

impl InsertionPoint {
    /// Returns the named child.
    pub(crate) fn child(&self) -> Option<NodeId>
        ensures { result ≡ child_of self.now }
    {
        match *self {
            InsertionPoint::Before(child) => child,
            InsertionPoint::Instead(child) => Some(child),
        }
    }

    // Returns whether that child stays.
    fn keeps_child(&self) -> bool
        ensures { result ≡ keeps_child self.now }
    {
        match *self {
            InsertionPoint::Before(_) => true,
            InsertionPoint::Instead(_) => false,
        }
    }
}

/// Whether some nodes have elements and doctypes among them.
#[derive(Clone, Copy)]
pub(crate) struct Found {
    element: bool,
    doctype: bool,
}

const NOTHING: Found = Found {
    element: false,
    doctype: false,
};

// Returns whether the number is given, and is the node's.
fn is_number(given: Option<NodeId>, node: NodeId) -> bool
    ensures { result ≡ is_number given node }
{
    match given {
        Some(number) => number == node,
        None => false,
    }
}

// Returns whether a node is an element or a doctype.
fn found_at(tree: &Tree<Content>, node: NodeId) -> Found
    requires { HasNode tree.now.forest node }
    ensures { IsFound tree.now.forest (node ∷ []) result }
{
    Found {
        element: tree.is_of_kind(node, Kind::Element),
        doctype: tree.is_of_kind(node, Kind::DocumentType),
    }
}

// Returns which kinds are among the children of a node from one child on, up to another.
fn found_between(
    tree: &Tree<Content>,
    parent: NodeId,
    from: Option<NodeId>,
    until: Option<NodeId>,
) -> Found
    requires held { HasNode tree.now.forest parent }
    requires child { IsAmong from (children_of tree.now.forest parent) }
    ensures { IsFound tree.now.forest (children_ahead until
        (from_optional from (children_of tree.now.forest parent))) result }
{
    tree.state_law();
    let mut found = NOTHING;
    for child in tree.children_from(parent, from) {
        if is_number(until, child) {
            return found;
        }
        let element = tree.is_of_kind(child, Kind::Element);
        let doctype = tree.is_of_kind(child, Kind::DocumentType);
        found = Found {
            element: found.element || element,
            doctype: found.doctype || doctype,
        };
    }
    found
}

// The kinds around an insertion point in a Document: ahead of its child, at the child if that stays, and after it.
#[derive(Clone, Copy)]
struct Around {
    ahead: Found,
    at: Found,
    past: Found,
}

impl Around {
    // Returns whether an element is refused: there is another, or a doctype would follow it.
    fn refuses_element(&self) -> bool
        ensures { result ≡ (self.now.ahead.element
            || (self.now.at.element || (self.now.past.element
            || (self.now.at.doctype || self.now.past.doctype)))) }
    {
        self.ahead.element
            || self.at.element
            || self.past.element
            || self.at.doctype
            || self.past.doctype
    }

    // Returns whether a doctype is refused: there is another, or an element precedes it.
    fn refuses_doctype(&self) -> bool
        ensures { result ≡ (self.now.ahead.doctype
            || (self.now.at.doctype || (self.now.past.doctype || self.now.ahead.element))) }
    {
        self.ahead.doctype || self.at.doctype || self.past.doctype || self.ahead.element
    }
}

// Collects the kinds around an insertion point in one pass over the children.
fn look_around(tree: &Tree<Content>, document: NodeId, place: InsertionPoint) -> Around
    requires held { HasNode tree.now.forest document }
    requires under { IsUnder tree.now.forest document place }
    ensures { IsAround tree.now.forest document place result }
{
    tree.state_law();
    let first = tree.first(document);
    let Some(child) = place.child() else {
        return Around {
            ahead: found_between(tree, document, first, None),
            at: NOTHING,
            past: NOTHING,
        };
    };
    let at = if place.keeps_child() {
        found_at(tree, child)
    } else {
        NOTHING
    };
    Around {
        ahead: found_between(tree, document, first, Some(child)),
        at,
        past: found_between(tree, document, tree.next(child), None),
    }
}

// Returns how many children of a node are of a kind.
fn count_children(tree: &Tree<Content>, parent: NodeId, kind: Kind) -> usize
    requires { HasNode tree.now.forest parent }
    ensures { result ≡ count_kind kind tree.now.forest (children_of tree.now.forest parent) }
{
    tree.state_law();
    // there are no more than all of them
    let _most = tree.count(parent);
    let mut count: usize = 0;
    for child in tree.children(parent) {
        if tree.is_of_kind(child, kind) {
            count += 1;
        }
    }
    count
}

// Returns whether a child of a node is of a kind.
fn has_child(tree: &Tree<Content>, parent: NodeId, kind: Kind) -> bool
    requires { HasNode tree.now.forest parent }
    ensures { result ≡ has_kind kind tree.now.forest (children_of tree.now.forest parent) }
{
    count_children(tree, parent, kind) != 0
}

// Returns how many children of a kind stay around an insertion point in a Document, if the cached counts tell.
fn count_around(
    tree: &Tree<Content>,
    document: NodeId,
    place: InsertionPoint,
    kind: Kind,
) -> Option<u32>
    requires held { HasNode tree.now.forest document }
    requires under { IsUnder tree.now.forest document place }
    ensures { IfSome result (λ n. n ≡ count_around kind tree.now.forest document place) }
{
    tree.state_law();
    let all = tree.children_of_kind(document, kind)?;
    match place {
        InsertionPoint::Before(_) => Some(all),
        InsertionPoint::Instead(child) if tree.is_of_kind(child, kind) => Some(all.saturating_sub(
            1,
        )),
        InsertionPoint::Instead(_) => Some(all),
    }
}

// Returns whether the one child of a kind is ahead of an insertion point before or in the place of a child, if it is known without a walk.
fn is_ahead(
    tree: &Tree<Content>,
    document: NodeId,
    place: InsertionPoint,
    kind: Kind,
) -> Option<bool>
    requires held { HasNode tree.now.forest document }
    requires under { IsUnder tree.now.forest document place }
    ensures { IfSome result (λ ahead. ahead ≡ has_kind kind tree.now.forest
        (children_ahead (child_of place) (children_of tree.now.forest document))) }
{
    tree.state_law();
    let child = place.child()?;
    let count = tree.children_of_kind(document, kind)?;
    if count != 1 {
        return None;
    }
    let known = tree.known_child(document, kind)?;
    Some(tree.comes_before(known, child))
}

// Returns whether a Document refuses an element at an insertion point, if that is known without a walk: there is another, or the one doctype can follow or not.
fn element_by_count(tree: &Tree<Content>, document: NodeId, place: InsertionPoint) -> Option<bool>
    requires held { HasNode tree.now.forest document }
    requires under { IsUnder tree.now.forest document place }
    ensures { IfSome result (λ refused. (n : ℕ) → refused
        ≡ refuses place Element tree.now.forest document n) }
{
    tree.state_law();
    let elements = count_around(tree, document, place, Kind::Element)?;
    if elements != 0 {
        return Some(true);
    }
    if place.child().is_none() {
        return Some(false);
    }
    let doctypes = count_around(tree, document, place, Kind::DocumentType)?;
    if doctypes == 0 {
        return Some(false);
    }
    if doctypes != 1 {
        return None;
    }
    let is_first = is_ahead(tree, document, place, Kind::DocumentType)?;
    Some(!is_first)
}

// Returns whether a Document refuses a doctype at an insertion point, if that is known without a walk: there is another, no element, or the one element precedes it or not.
fn doctype_by_count(tree: &Tree<Content>, document: NodeId, place: InsertionPoint) -> Option<bool>
    requires held { HasNode tree.now.forest document }
    requires under { IsUnder tree.now.forest document place }
    ensures { IfSome result (λ refused. (n : ℕ) → refused
        ≡ refuses place DocumentType tree.now.forest document n) }
{
    tree.state_law();
    let doctypes = count_around(tree, document, place, Kind::DocumentType)?;
    if doctypes != 0 {
        return Some(true);
    }
    let elements = count_around(tree, document, place, Kind::Element)?;
    if elements == 0 {
        return Some(false);
    }
    if place.child().is_none() {
        return Some(true);
    }
    is_ahead(tree, document, place, Kind::Element)
}

// Returns whether a Document refuses an element at an insertion point, by a walk over its children.
fn element_by_walk(tree: &Tree<Content>, document: NodeId, place: InsertionPoint) -> bool
    requires held { HasNode tree.now.forest document }
    requires under { IsUnder tree.now.forest document place }
    ensures { (n : ℕ) → result ≡ refuses place Element tree.now.forest document n }
{
    tree.state_law();
    look_around(tree, document, place).refuses_element()
}

// Returns whether a Document refuses an element at an insertion point.
fn refuses_element(tree: &Tree<Content>, document: NodeId, place: InsertionPoint) -> bool
    requires held { HasNode tree.now.forest document }
    requires under { IsUnder tree.now.forest document place }
    ensures { (n : ℕ) → result ≡ refuses place Element tree.now.forest document n }
{
    let counted = place;
    if let Some(refused) = element_by_count(tree, document, counted) {
        return refused;
    }
    element_by_walk(tree, document, place)
}

// Returns whether a Document refuses a doctype at an insertion point, by a walk over its children.
fn doctype_by_walk(tree: &Tree<Content>, document: NodeId, place: InsertionPoint) -> bool
    requires held { HasNode tree.now.forest document }
    requires under { IsUnder tree.now.forest document place }
    ensures { (n : ℕ) → result ≡ refuses place DocumentType tree.now.forest document n }
{
    tree.state_law();
    look_around(tree, document, place).refuses_doctype()
}

// Returns whether a Document refuses a doctype at an insertion point.
fn refuses_doctype(tree: &Tree<Content>, document: NodeId, place: InsertionPoint) -> bool
    requires held { HasNode tree.now.forest document }
    requires under { IsUnder tree.now.forest document place }
    ensures { (n : ℕ) → result ≡ refuses place DocumentType tree.now.forest document n }
{
    let counted = place;
    if let Some(refused) = doctype_by_count(tree, document, counted) {
        return refused;
    }
    doctype_by_walk(tree, document, place)
}

// Returns whether a Document refuses the children of a fragment: more than one element, a Text, or an element that it refuses.
fn refuses_fragment(
    tree: &Tree<Content>,
    document: NodeId,
    fragment: NodeId,
    place: InsertionPoint,
) -> bool
    requires held { HasNode tree.now.forest document }
    requires fragment_held { HasNode tree.now.forest fragment }
    requires under { IsUnder tree.now.forest document place }
    ensures { result ≡ refuses place DocumentFragment tree.now.forest document fragment }
{
    let elements = count_children(tree, fragment, Kind::Element);
    if elements > 1 || has_child(tree, fragment, Kind::Text) {
        return true;
    }
    elements == 1 && refuses_element(tree, document, place)
}

/// Returns whether a Document with its present children refuses a node of a kind at an insertion point.
pub(crate) fn is_refused(
    tree: &Tree<Content>,
    document: NodeId,
    node: NodeId,
    kind: Kind,
    place: InsertionPoint,
) -> bool
    requires held { HasNode tree.now.forest document }
    requires node_held { HasNode tree.now.forest node }
    requires under { IsUnder tree.now.forest document place }
    ensures { result ≡ refuses place kind tree.now.forest document node }
{
    match kind {
        Kind::Element => refuses_element(tree, document, place),
        Kind::DocumentType => refuses_doctype(tree, document, place),
        Kind::DocumentFragment => refuses_fragment(tree, document, node, place),
        Kind::Text | Kind::ProcessingInstruction | Kind::Comment | Kind::Document => false,
    }
}
