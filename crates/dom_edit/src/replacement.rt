//! Inserting nodes in the place of others (DOM Standard, "Mutation algorithms", pre-insert, replace, replace all).

ghost use Rattle.std.specs.Prelude.{◌≡◌, Some, None, MatchResult, IfOk, IsOk, OnOk, true};
ghost use Rattle.std.specs.Option.{ForSome};
ghost use Rattle.dom_model.specs.Forests.Forest.{HasNode};
ghost use Rattle.dom_model.specs.MutationAlgorithms.Editing.{insert_if_any, replaced_record};
ghost use Rattle.dom_model.specs.MutationAlgorithms.Insertable.{IsInsertable};
ghost use Rattle.dom_edit.specs.Insertion.{AreThere, ComesIn, brought_if_any};
ghost use Rattle.dom_edit.specs.Refusals.{check_only_child};
ghost use Rattle.dom_edit.specs.Whole.{IsWhole, IsUnobserved, Follows};
ghost use Rattle.dom_edit.specs.KeptNodes.{KeepsNodes};

use crate::insertion::{Incoming, entering};
use crate::pre_insertion::check_insert;
use crate::world::World;
use dom_kinds::DomError;
use dom_payload::Content;
use dom_tree::{NodeId, Tree};
use std::alloc::{AllocError, Global};

/// Returns the inserted nodes for a node; none if no node is given.
pub(crate) fn entering_if_any(
    tree: &Tree<Content>,
    alloc: Global,
    node: Option<NodeId>,
) -> Result<Incoming, AllocError>
    requires { ForSome node (λ n. HasNode tree.now.forest n) }
    ensures { IfOk result (λ i. ForSome node (λ n. ComesIn tree.now.forest n i)) }
{
    match node {
        Some(node) => entering(tree, alloc, node),
        None => Ok(Incoming::Children(Vec::new(alloc))),
    }
}

/// Returns the inserted nodes; none if no node is given.
pub(crate) fn nodes_if_any<'a>(node: &'a Option<NodeId>, incoming: &'a Incoming) -> &'a [NodeId]
    ensures { result.now ≡ brought_if_any node.now incoming.now }
{
    match node {
        Some(node) => incoming.nodes(node),
        None => &[],
    }
}

/// Checks a node, or nothing, as the only child of a parent.
pub(crate) fn check_only_child(
    tree: &Tree<Content>,
    parent: NodeId,
    node: Option<NodeId>,
) -> Result<(), DomError>
    requires parent_held { HasNode tree.now.forest parent }
    requires node_held { ForSome node (λ n. HasNode tree.now.forest n) }
    ensures { MatchResult result (λ _. check_only_child tree.now.forest parent node
        ≡ None) (λ e. check_only_child tree.now.forest parent node ≡ Some e) }
{
    match node {
        Some(node) => check_insert(tree, parent, node, None),
        None => Ok(()),
    }
}

impl World {
    /// Appends the given nodes to a parent without a record. Does nothing if no node is given.
    pub(crate) fn insert_if_any(
        &mut self,
        node: Option<NodeId>,
        parent: NodeId,
        incoming: &Incoming,
    ) -> Result<(), AllocError>
        requires whole { IsWhole self.old }
        requires parent_held { HasNode self.old.tree.forest parent }
        requires allowed { ForSome node (λ n. IsInsertable self.old.tree.forest n parent None) }
        requires incoming { ForSome node (λ n.
            ComesIn self.old.tree.forest n incoming.now) }
        ensures inserted { OnOk result (Follows self.old self.new (insert_if_any node parent)) }
        ensures succeeds { IsUnobserved self.old → IsOk result }
        ensures unobserved { IsUnobserved self.old → self.new.observers ≡ self.old.observers }
        ensures kept { KeepsNodes self.old self.new }
        ensures whole { IsWhole self.new }
    {
        match node {
            Some(node) => self.enter(true, node, parent, None, incoming),
            None => Ok(()),
        }
    }

    /// Queues a record of replaced children, if any were inserted or removed.
    pub(crate) fn queue_replaced(
        &mut self,
        parent: NodeId,
        added: &[NodeId],
        removed: &[NodeId],
    ) -> Result<(), AllocError>
        requires whole { IsWhole self.old }
        requires parent_held { HasNode self.old.tree.forest parent }
        requires added { AreThere self.old.tree.forest added.now }
        requires removed { AreThere self.old.tree.forest removed.now }
        ensures queued { OnOk result (Follows self.old self.new
            (replaced_record parent added.now removed.now)) }
        ensures succeeds { IsUnobserved self.old → IsOk result }
        ensures kept { KeepsNodes self.old self.new }
        ensures whole { IsWhole self.new }
    {
        if added.is_empty() && removed.is_empty() {
            return Ok(());
        }
        self.queue_tree_record(parent, added, removed, None, None)
    }
}
