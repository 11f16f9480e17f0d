//! The inclusive descendants of a node (DOM Standard, "Trees").

ghost use Rattle.std.specs.Prelude.{◌≡◌, ◌==◌, ◌≤◌, ℕ, Bool, length, Some, None, IsSome, true, if◌then◌else◌};
ghost use Rattle.dom_model.specs.PlainLists.Lists.{among, after, last_of};
ghost use Rattle.dom_model.specs.Forests.Forest.{HasNode, parent_of, ancestors, inclusive_descendants};
ghost use Rattle.dom_tree.specs.FirstFound.{first_asked};

use crate::neighbours::{self, number_of, place_at, place_of};
use crate::node_id::NodeId;
use crate::tree::Tree;

impl<X> Tree<X> {
    /// Returns whether a node is an inclusive descendant of `top`; neither has to exist. It does not climb if `top` has no children.
    pub fn is_inside(&self, top: NodeId, node: NodeId) -> bool
        ensures { result ≡ among node (inclusive_descendants self.now.forest top) }
    {
        self.state_law();
        self.links.state_law();
        let Some(place) = place_at(&self.links, &self.table, top) else {
            return false;
        };
        match neighbours::first(&self.links, place) {
            None => node == top,
            Some(_) => self.holds(node) && self.is_ancestor(top, node),
        }
    }

    /// Returns the next node in tree order among the inclusive descendants of `top`.
    pub fn next_inside(&self, top: NodeId, id: NodeId) -> Option<NodeId>
        requires held { HasNode self.now.forest id }
        requires under { among top (ancestors id self.now.forest) ≡ true }
        ensures { result ≡ after id (inclusive_descendants self.now.forest top) }
    {
        self.state_law();
        self.links.state_law();
        let mut here = place_of(&self.links, &self.table, id);
        if let Some(child) = neighbours::first(&self.links, here) {
            return Some(number_of(&self.links, child));
        }
        let end = self.links.slot(place_of(&self.links, &self.table, top));
        while self.links.slot(here) != end {
            if let Some(next) = neighbours::next(&self.links, here) {
                return Some(number_of(&self.links, next));
            }
            here = neighbours::parent(&self.links, here).unwrap();
        }
        None
    }

    /// Returns the last inclusive descendant in tree order.
    pub fn last_inside(&self, id: NodeId) -> NodeId
        requires { HasNode self.now.forest id }
        ensures { Some result ≡ last_of (inclusive_descendants self.now.forest id) }
    {
        self.state_law();
        self.links.state_law();
        let mut here = place_of(&self.links, &self.table, id);
        while let Some(last) = neighbours::last(&self.links, here) {
            here = last;
        }
        number_of(&self.links, here)
    }

    /// Returns whether a test holds for an inclusive descendant of `top`; none if it tested `steps` of them and there are more.
    ///
    /// It tests them in tree order. Its contract is about a test that always has the same result at a node. For any test, it returns a result if
    /// there are at most `steps` nodes.
    pub fn any_inside<F: Fn(NodeId) -> bool>(
        &self,
        top: NodeId,
        steps: usize,
        test: F,
    ) -> Option<bool>
        requires held { HasNode self.now.forest top }
        requires callable { F.IsAlwaysCallable test }
        ensures asked { (says : ℕ → Bool) →
            ((n : ℕ) (passes : Bool) → F.post test n passes → passes ≡ says n) →
            result ≡ first_asked (inclusive_descendants self.now.forest top) steps says }
        ensures answered { length (inclusive_descendants self.now.forest top) ≤ steps →
            IsSome result }
    {
        self.state_law();
        let mut here = top;
        for _step in 0..steps {
            if test(here) {
                return Some(true);
            }
            match self.next_inside(top, here) {
                Some(next) => here = next,
                None => return Some(false),
            }
        }
        None
    }

    /// Returns the parent, as a step of a climb to `top` or to a root; none at its end, and for a node that does not exist.
    pub fn climb_to(&self, top: NodeId, node: NodeId) -> Option<NodeId>
        ensures { result ≡ (if node == top then None else parent_of self.now.forest node) }
    {
        if node == top || !self.holds(node) {
            return None;
        }
        self.parent(node)
    }

    /// Returns how many inclusive descendants of `top` a walk visits, before it or the climbs from other nodes end. `nodes` gives these by index
    /// until there is none. Walk and climbs alternate: a node, then a step of a climb.
    ///
    /// So it costs at most twice the shorter of the two. The result decides only how long something takes, so no clause states it.
    pub fn steps_inside<F: Fn(usize) -> Option<NodeId>>(&self, top: NodeId, nodes: F) -> usize
        requires held { HasNode self.now.forest top }
        requires callable { F.IsAlwaysCallable nodes }
    {
        self.state_law();
        let mut here = top;
        let mut climbing = None;
        let mut begun = 0;
        for passed in 0..usize::MAX {
            if let Some(node) = climbing {
                climbing = self.climb_to(top, node);
            } else {
                climbing = nodes(begun);
                if climbing.is_none() {
                    return passed;
                }
                begun = begun.saturating_add(1);
            }
            match self.next_inside(top, here) {
                Some(next) => here = next,
                None => return passed + 1,
            }
        }
        usize::MAX
    }
}
