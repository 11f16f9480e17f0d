//! Tree records (DOM Standard, "Mutation observers", queue a tree mutation record).

ghost use Rattle.std.specs.Prelude.{◌≡◌, OnOk, OnErr, IsOk};
ghost use Rattle.std.specs.Option.{ForSome};
ghost use Rattle.dom_model.specs.Forests.Forest.{HasNode, ancestors};
ghost use Rattle.dom_model.specs.MutationAlgorithms.Editing.{tree_record};
ghost use Rattle.dom_observe.specs.ObservedNodes.{NamesNoneOf, SameObservers};
ghost use Rattle.dom_edit.specs.Insertion.{AreThere};
ghost use Rattle.dom_edit.specs.Whole.{IsWhole, IsUnobserved, Follows};

use crate::world::World;
use dom_model::RecordType;
use dom_observe::Mutation;
use dom_tree::NodeId;
use std::alloc::AllocError;

impl World {
    /// Queues a record of children that were added to a node or removed from it, for each interested observer.
    ///
    /// Borrows the lists: copies nothing if nobody is interested.
    pub(crate) fn queue_tree_record<'a>(
        &mut self,
        target: NodeId,
        added: &'a [NodeId],
        removed: &'a [NodeId],
        previous: Option<NodeId>,
        next: Option<NodeId>,
    ) -> Result<(), AllocError>
        requires whole { IsWhole self.old }
        requires held { HasNode self.old.tree.forest target }
        requires added { AreThere self.old.tree.forest added.now }
        requires removed { AreThere self.old.tree.forest removed.now }
        requires previous { ForSome previous (λ n. HasNode self.old.tree.forest n) }
        requires next { ForSome next (λ n. HasNode self.old.tree.forest n) }
        ensures queued { OnOk result (Follows self.old self.new
            (tree_record target added.now removed.now previous next)) }
        ensures parts { self.new ≡ record self.old { observers = self.new.observers } }
        ensures err { OnErr result (self.new ≡ self.old) }
        ensures observers { SameObservers self.old.observers self.new.observers }
        ensures quiet { NamesNoneOf (ancestors target self.old.tree.forest) self.old.observers →
            self.new ≡ self.old }
        ensures succeeds { IsUnobserved self.old → IsOk result }
        ensures unobserved { IsUnobserved self.old → self.new ≡ self.old }
        ensures whole { IsWhole self.new }
    {
        if self.observers.is_idle() {
            return Ok(());
        }
        let mutation = Mutation {
            what: RecordType::ChildList,
            target,
            added,
            removed,
            previous,
            next,
            name: None,
            old_value: None,
        };
        self.observers.queue_record(&self.tree, &mutation)
    }
}
