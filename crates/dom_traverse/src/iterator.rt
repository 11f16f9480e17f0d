//! One node iterator (DOM Standard, "Interface NodeIterator").

ghost use Rattle.std.specs.Prelude.{◌≡◌, true, find, reverse};
ghost use Rattle.std.specs.Option.{ForSome};
ghost use Rattle.dom_model.specs.PlainLists.Lists.{among, up_to, past};
ghost use Rattle.dom_model.specs.Forests.Forest.{HasNode, ancestors, inclusive_descendants};
ghost use Rattle.dom_model.specs.Traversal.Filters.{accepts};
ghost use Rattle.dom_model.specs.Traversal.Iterators.{next_found, previous_found, moved_to_next, moved_to_previous};
ghost use Rattle.dom_model.specs.MutationAlgorithms.PreRemoval.{pre_removed};
ghost use Rattle.dom_traverse.specs.NewReferences.{IsExit, gone_by};
ghost use Rattle.dom_traverse.specs.PreRemoval.{stepped_at};
ghost use Rattle.dom_traverse.specs.Items.{StandsInside};

use crate::judge::Judge;
use crate::new_reference::NewReference;
use crate::positioned::Positioned;
use crate::preceding_and_following::previous_inside;
use dom_tree::{NodeId, Tree};
use std::marker::Model;

// A root, a reference inside it, whether the pointer is before the reference, and a filter.
#[derive(Drop)]
pub struct NodeIterator {
    pub root: NodeId,
    pub reference: NodeId,
    pub before: bool,
    pub filter: Judge,
}

impl Model for NodeIterator {
    ghost use Rattle.dom_model.specs.Worlds.World.{Iterator};

    ghost Value = { Iterator };

    ghost view = { λ i. record { root = i.root; reference = i.reference; before = i.before; filter = i.filter } };
}

impl Positioned for NodeIterator {
    ghost root_of = { λ i. i.root };

    ghost node_of = { λ i. i.reference };

    fn root(&self) -> NodeId {
        self.root
    }

    fn node(&self) -> NodeId {
        self.reference
    }
}

// Returns the first accepted node that follows `node` inside the root.
fn next_accepted<X>(tree: &Tree<X>, filter: &Judge, root: NodeId, node: NodeId) -> Option<NodeId>
    requires held { HasNode tree.now.forest node }
    requires under { among root (ancestors node tree.now.forest) ≡ true }
    ensures { result ≡ find (accepts tree.now.forest filter.now)
        (past node (inclusive_descendants tree.now.forest root)) }
{
    tree.state_law();
    let mut here = tree.at(node);
    while let Some(next) = here.next_inside(root) {
        if filter.accepts(&next) {
            return Some(next.number());
        }
        here = next;
    }
    None
}

// Returns the nearest accepted node that precedes `node` inside the root.
fn previous_accepted<X>(
    tree: &Tree<X>,
    filter: &Judge,
    root: NodeId,
    node: NodeId,
) -> Option<NodeId>
    requires held { HasNode tree.now.forest node }
    requires under { among root (ancestors node tree.now.forest) ≡ true }
    ensures { result ≡ find (accepts tree.now.forest filter.now)
        (reverse (up_to node (inclusive_descendants tree.now.forest root))) }
{
    tree.state_law();
    let mut here = tree.at(node);
    while let Some(previous) = previous_inside(&here, root) {
        if filter.accepts(&previous) {
            return Some(previous.number());
        }
        here = previous;
    }
    None
}

impl NodeIterator {
    // Moves to the next node that the filter accepts, if there is one.
    pub fn next<X>(&mut self, tree: &Tree<X>) -> Option<NodeId>
        requires { StandsInside tree.now.forest self.old }
        ensures found { result ≡ next_found tree.now.forest self.old }
        ensures moved { self.new ≡ moved_to_next tree.now.forest self.old }
    {
        let found = self.found_next(tree)?;
        self.reference = found;
        self.before = false;
        Some(found)
    }

    // Moves to the previous node that the filter accepts, if there is one.
    pub fn previous<X>(&mut self, tree: &Tree<X>) -> Option<NodeId>
        requires { StandsInside tree.now.forest self.old }
        ensures found { result ≡ previous_found tree.now.forest self.old }
        ensures moved { self.new ≡ moved_to_previous tree.now.forest self.old }
    {
        let found = self.found_previous(tree)?;
        self.reference = found;
        self.before = true;
        Some(found)
    }

    // Returns the first accepted node from the pointer on.
    fn found_next<X>(&self, tree: &Tree<X>) -> Option<NodeId>
        requires { StandsInside tree.now.forest self.now }
        ensures { result ≡ next_found tree.now.forest self.now }
    {
        tree.state_law();
        if self.before && self.filter.accepts_number(tree, self.reference) {
            return Some(self.reference);
        }
        next_accepted(tree, &self.filter, self.root, self.reference)
    }

    // Returns the first accepted node from the pointer back.
    fn found_previous<X>(&self, tree: &Tree<X>) -> Option<NodeId>
        requires { StandsInside tree.now.forest self.now }
        ensures { result ≡ previous_found tree.now.forest self.now }
    {
        tree.state_law();
        if !self.before && self.filter.accepts_number(tree, self.reference) {
            return Some(self.reference);
        }
        previous_accepted(tree, &self.filter, self.root, self.reference)
    }

    // Runs the pre-removing steps: moves a reference inside the removed node on if the pointer is before it, or else back. Returns the exit found for
    // the root, or the last one.
    pub fn removing<X>(
        &mut self,
        tree: &Tree<X>,
        node: NodeId,
        last: Option<NewReference>,
    ) -> Option<NewReference>
        requires held { HasNode tree.now.forest node }
        requires found { ForSome last (IsExit tree.now.forest node) }
        ensures moved { self.new ≡ pre_removed tree.now.forest node self.old }
        ensures found { ForSome result (IsExit tree.now.forest node) }
    {
        tree.state_law();
        if tree.is_inside(node, self.reference) {
            self.leave(tree, node, last)
        } else {
            last
        }
    }

    // Does so for a reference known to be at `here` inside the removed node. A reference elsewhere stays.
    pub fn removing_at<X>(
        &mut self,
        tree: &Tree<X>,
        node: NodeId,
        here: NodeId,
        last: Option<NewReference>,
    ) -> Option<NewReference>
        requires held { HasNode tree.now.forest node }
        requires inside { among here (inclusive_descendants tree.now.forest node) ≡ true }
        requires found { ForSome last (IsExit tree.now.forest node) }
        ensures moved { self.new ≡ stepped_at here (pre_removed tree.now.forest node) self.old }
        ensures found { ForSome result (IsExit tree.now.forest node) }
    {
        if self.reference == here {
            self.leave(tree, node, last)
        } else {
            last
        }
    }

    // Does so for a reference known to be inside the removed node.
    fn leave<X>(
        &mut self,
        tree: &Tree<X>,
        node: NodeId,
        last: Option<NewReference>,
    ) -> Option<NewReference>
        requires held { HasNode tree.now.forest node }
        requires inside { among self.old.reference (inclusive_descendants tree.now.forest node)
            ≡ true }
        requires found { ForSome last (IsExit tree.now.forest node) }
        ensures moved { self.new ≡ pre_removed tree.now.forest node self.old }
        ensures found { ForSome result (IsExit tree.now.forest node) }
    {
        let exit = NewReference::for_root(last, tree, node, self.root);
        self.step_off(&exit);
        Some(exit)
    }

    // Moves a reference that is inside the removed node.
    fn step_off(&mut self, exit: &NewReference)
        ensures { self.new ≡ gone_by exit.now self.old }
    {
        if !exit.loses {
            return;
        }
        if self.before {
            if let Some(following) = exit.following {
                self.reference = following;
                return;
            }
            self.before = false;
        }
        if let Some(preceding) = exit.preceding {
            self.reference = preceding;
        }
    }
}
