//! Validity checks before an insertion and a replacement (DOM Standard, "Mutation algorithms": ensure pre-insertion validity; replace).

ghost use Rattle.std.specs.Prelude.{◌≡◌, Bool, None, Some, MatchResult, not, ◌||◌, ◌&&◌};
ghost use Rattle.std.specs.Option.{ForSome};
ghost use Rattle.dom_model.specs.declared.Kind.{Kind};
ghost use Rattle.dom_model.specs.declared.Kind.TheVariants.{Text, Document, DocumentType};
ghost use Rattle.dom_model.specs.Forests.Kinds.{may_be_parent, is_kind};
ghost use Rattle.dom_model.specs.PlainLists.Lists.{among, is_number, first_refusal};
ghost use Rattle.dom_model.specs.Forests.Forest.{HasNode, parent_of, inclusive_descendants};
ghost use Rattle.dom_model.specs.Forests.Nodes.{kind_passes};
ghost use Rattle.dom_model.specs.MutationAlgorithms.Checks.{if_given, check_insert, check_replace};
ghost use Rattle.dom_edit.specs.InsertionPoints.{child_of, conditions_at};

use crate::insertion_point::{InsertionPoint, is_refused};
use dom_kinds::{DomError, Kind, may_be_parent};
use dom_payload::Content;
use dom_tree::{At, NodeId, Tree};

// Returns whether a kind is refused under the other: a Document anywhere, a Text under a Document, a doctype under anything else.
fn is_misplaced(parent: Kind, kind: Kind) -> bool
    ensures { result ≡ (is_kind Document kind
        || ((is_kind Text kind && is_kind Document parent)
        || (is_kind DocumentType kind && not (is_kind Document parent)))) }
{
    match kind {
        Kind::Document => true,
        Kind::Text => parent == Kind::Document,
        Kind::DocumentType => parent != Kind::Document,
        Kind::Element | Kind::ProcessingInstruction | Kind::Comment | Kind::DocumentFragment =>
            false,
    }
}

// Returns whether a child is given that is no child of the parent.
fn is_elsewhere(tree: &Tree<Content>, parent: NodeId, child: Option<NodeId>) -> bool
    requires { ForSome child (λ c. HasNode tree.now.forest c) }
    ensures { result ≡ if_given (λ c. not (is_number (parent_of tree.now.forest c) parent)) child }
{
    match child {
        Some(child) => match tree.parent(child) {
            Some(above) => above != parent,
            None => true,
        },
        None => false,
    }
}

// Returns the kind of a node.
fn kind_at(node: &At<'_, Content>) -> Kind
    ensures { (test : Kind → Bool) → kind_passes test node.now.tree.forest node.now.node
        ≡ test result }
{
    node.state_law();
    node.label().kind
}

// Returns whether a node is a descendant of another. It climbs nothing if the other has no children.
fn is_inside(top: &At<'_, Content>, node: At<'_, Content>) -> bool
    requires { node.tree ≡ top.now.tree }
    ensures { result ≡ among node.entry.node (inclusive_descendants top.now.tree.forest
        top.now.node) }
{
    top.state_law();
    let end = top.number();
    if top.first().is_none() {
        return node.number() == end;
    }
    node.state_law();
    let mut here = node;
    while here.number() != end {
        let Some(above) = here.parent() else {
            return false;
        };
        here = above;
    }
    true
}

// Checks an insertion point. All refusals but one have the same name, so the cheapest checks come first.
#[inline(always)]
fn check(
    tree: &Tree<Content>,
    parent: NodeId,
    node: NodeId,
    place: InsertionPoint,
) -> Result<(), DomError>
    requires parent_held { HasNode tree.now.forest parent }
    requires node_held { HasNode tree.now.forest node }
    requires child_held { ForSome (child_of place) (λ c. HasNode tree.now.forest c) }
    ensures { MatchResult result (λ _. first_refusal
        (conditions_at place tree.now.forest parent node) ≡ None)
        (λ e. first_refusal (conditions_at place tree.now.forest parent node) ≡ Some e) }
{
    tree.state_law();
    let parent_at = tree.at(parent);
    let node_at = tree.at(node);
    let above = kind_at(&parent_at);
    let kind = kind_at(&node_at);
    if !may_be_parent(above) {
        return Err(DomError::HierarchyRequestError);
    }
    if is_elsewhere(tree, parent, place.child()) {
        return Err(if is_inside(&node_at, parent_at) {
            DomError::HierarchyRequestError
        } else {
            DomError::NotFoundError
        });
    }
    if is_misplaced(above, kind) || is_inside(&node_at, parent_at) {
        return Err(DomError::HierarchyRequestError);
    }
    if above == Kind::Document && is_refused(tree, parent, node, kind, place) {
        return Err(DomError::HierarchyRequestError);
    }
    Ok(())
}

/// Checks whether a node may be inserted under a parent, before a child of it or last.
///
/// The parent must be of a kind that may have children, and outside the node's subtree. The child must be its child. A Document refuses a Text, a
/// second element or doctype, and an element ahead of its doctype.
pub fn check_insert(
    tree: &Tree<Content>,
    parent: NodeId,
    node: NodeId,
    child: Option<NodeId>,
) -> Result<(), DomError>
    requires parent_held { HasNode tree.now.forest parent }
    requires node_held { HasNode tree.now.forest node }
    requires child_held { ForSome child (λ c. HasNode tree.now.forest c) }
    ensures { MatchResult result (λ _. check_insert tree.now.forest parent node child
        ≡ None) (λ e. check_insert tree.now.forest parent node child ≡ Some e) }
{
    check(tree, parent, node, InsertionPoint::Before(child))
}

/// Checks whether a node may replace a child of a parent.
///
/// Checks as [`check_insert`] does, against the children that stay.
pub fn check_replace(
    tree: &Tree<Content>,
    parent: NodeId,
    node: NodeId,
    child: NodeId,
) -> Result<(), DomError>
    requires parent_held { HasNode tree.now.forest parent }
    requires node_held { HasNode tree.now.forest node }
    requires child_held { HasNode tree.now.forest child }
    ensures { MatchResult result (λ _. check_replace tree.now.forest parent node child
        ≡ None) (λ e. check_replace tree.now.forest parent node child ≡ Some e) }
{
    check(tree, parent, node, InsertionPoint::Instead(child))
}
