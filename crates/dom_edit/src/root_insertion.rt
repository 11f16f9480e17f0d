//! Inserting roots under a parent (DOM Standard, "Mutation algorithms", insert; "Live ranges"). Nothing here takes memory.

ghost use Rattle.std.specs.Prelude.{◌≡◌, length};
ghost use Rattle.dom_model.specs.MutationAlgorithms.Editing.{put_all, gap_before};
ghost use Rattle.dom_model.specs.Soundness.Owners.{IsOwnedWell};
ghost use Rattle.dom_edit.specs.Insertion.{placed_in, all_placed, with_room, IsOpen};
ghost use Rattle.dom_edit.specs.Whole.{IsWhole, Follows};
ghost use Rattle.dom_edit.specs.KeptNodes.{KeepsNodes};
ghost use Rattle.dom_edit.specs.OlderNodes.{LeavesOlder};
ghost use Rattle.std.specs.Prelude.{Some, None, [], ◌∷◌};

use crate::world::World;
use dom_payload::Content;
use dom_tree::{NodeId, Tree};

// Inserts a root and sets its node document. Visits its descendants only if that document changes.
fn put_in(tree: &mut Tree<Content>, parent: NodeId, child: Option<NodeId>, node: NodeId)
    requires owned { IsOwnedWell tree.old.forest }
    requires ready { IsOpen tree.old.forest parent child (node ∷ []) }
    ensures { tree.new ≡ record tree.old { forest = placed_in parent child node tree.old.forest } }
{
    tree.state_law();
    let document = tree.document_of(parent);
    let own = tree.document_of(node);
    tree.put(parent, node, child);
    tree.state_law();
    if own != document {
        tree.set_document(node, document);
    }
}

// Inserts roots, one after another.
fn put_all(tree: &mut Tree<Content>, parent: NodeId, child: Option<NodeId>, nodes: &[NodeId])
    requires owned { IsOwnedWell tree.old.forest }
    requires ready { IsOpen tree.old.forest parent child nodes.now }
    ensures { tree.new ≡ record tree.old {
      forest = all_placed parent child nodes.now
          tree.old.forest;
    } }
{
    for node in nodes {
        tree.state_law();
        // the checker covers no variable of this type that is passed by value at each turn
        let before = child;
        put_in(tree, parent, before, *node);
    }
}

impl World {
    // Moves the live range ends behind a child to make room for nodes before it. Looks for the child's index only if an end is in the parent.
    fn shift_ends(&mut self, parent: NodeId, child: Option<NodeId>, nodes: &[NodeId])
        requires whole { IsWhole self.old }
        requires ready { IsOpen self.old.tree.forest parent child nodes.now }
        ensures { self.new ≡ record self.old {
          ranges = record self.old.ranges {
            ranges = with_room self.old.tree.forest parent child
                (length nodes.now) self.old.ranges.ranges;
          };
        } }
    {
        let Some(child) = child else {
            return;
        };
        if !self.ranges.stands_in(parent) {
            return;
        }
        // fewer nodes are live than a number of the machine can tell, so the index and the offsets past it are such numbers too
        let _ = self.tree.live();
        let index = self.tree.found_index(child);
        self.ranges.gap(parent, index, nodes.len());
    }

    /// Inserts roots under a parent, before a child of it or last, after live range ends have made room.
    pub(crate) fn place(&mut self, parent: NodeId, child: Option<NodeId>, nodes: &[NodeId])
        requires whole { IsWhole self.old }
        requires ready { IsOpen self.old.tree.forest parent child nodes.now }
        ensures placed { Follows self.old self.new (λ w.
            put_all parent child nodes.now (gap_before parent child (length nodes.now) w)) }
        ensures observers { self.new.observers ≡ self.old.observers }
        ensures left { child ≡ None → LeavesOlder (parent ∷ nodes.now) self.old self.new }
        ensures kept { KeepsNodes self.old self.new }
        ensures whole { IsWhole self.new }
    {
        // the checker covers no variable of this type that is passed by value twice
        let before = child;
        self.shift_ends(parent, before, nodes);
        put_all(&mut self.tree, parent, child, nodes);
    }
}
