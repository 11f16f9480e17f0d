//! The world of a session: its nodes, and everything that refers to them.

ghost use Rattle.std.specs.Prelude.{◌≡◌, ◌<◌, [], true, None, IfOk, OnOk, OnErr, unwrap_or};
ghost use Rattle.std.specs.Option.{ForSome};
ghost use Rattle.dom_model.specs.declared.Kind.TheVariants.{Document};
ghost use Rattle.dom_model.specs.Forests.Kinds.{is_kind};
ghost use Rattle.dom_model.specs.Forests.Forest.{empty};
ghost use Rattle.dom_model.specs.Worlds.World.{first_world};
ghost use Rattle.dom_model.specs.Worlds.Making.{made_node};
ghost use Rattle.dom_model.specs.Forests.Nodes.{is_of_kind};
ghost use Rattle.dom_edit.specs.Whole.{IsWhole, Shows, CoversAhead, Follows};
ghost use Rattle.dom_edit.specs.KeptNodes.{KeepsLabels};

use dom_kinds::{Kind, Label};
use dom_observe::Observers;
use dom_payload::Content;
use dom_ranges::{Ranges, Statics};
use dom_traverse::{NodeIterators, Walkers};
use dom_tree::{NodeId, Tree};
use std::alloc::{AllocError, Global};

/// The nodes of a session, its live and static ranges, iterators and walkers, and its observers.
///
/// Each part can be borrowed beside the others. Whoever changes one keeps the world whole: the tree holds every node that a part names, ranges cover
/// every node, and live ranges and iterators are in order.
pub struct World {
    pub tree: Tree<Content>,
    pub ranges: Ranges,
    pub statics: Statics,
    pub iterators: NodeIterators,
    pub walkers: Walkers,
    pub observers: Observers,
}

// Frees a world by one call, so that a caller's proof has one step for it.
impl Drop for World {
    fn drop(self) {
        let World {
            tree: _,
            ranges: _,
            statics: _,
            iterators: _,
            walkers: _,
            observers: _,
        } = self;
    }
}

impl World {
    // Returns a world without nodes.
    fn empty(alloc: Global) -> World
        ensures tree { result.tree ≡ record { forest = empty; made = 0 } }
        ensures ranges { result.ranges ≡ record { ranges = []; covered = [] } }
        ensures statics { result.statics ≡ [] }
        ensures iterators { result.iterators ≡ [] }
        ensures walkers { result.walkers ≡ [] }
        ensures observers { result.observers ≡ record { nodes = []; queues = []; pending = [] } }
    {
        World {
            tree: Tree::new(alloc),
            ranges: Ranges::new(alloc),
            statics: Statics::new(alloc),
            iterators: NodeIterators::new(alloc),
            walkers: Walkers::new(alloc),
            observers: Observers::new(alloc),
        }
    }

    /// Returns a world with one node, a Document with number 0.
    pub fn new(alloc: Global) -> Result<World, AllocError>
        ensures { IfOk result (λ world. Shows world first_world) }
    {
        let label = Label::nameless(Kind::Document);
        let mut world = World::empty(alloc);
        let _ = world.make(label, Content::nothing(), None)?;
        Ok(world)
    }

    /// Makes a root without children, with the given node document, or itself if none is given. It gets the next number.
    pub fn make(
        &mut self,
        label: Label,
        content: Content,
        document: Option<NodeId>,
    ) -> Result<NodeId, AllocError>
        requires whole { IsWhole self.old }
        requires room { self.old.tree.made < 4294967295 }
        requires document_kind { ForSome document (λ d. is_of_kind Document self.old.tree.forest d
            ≡ true) }
        requires own_document { document ≡ None → is_kind Document label.kind ≡ true }
        ensures number { IfOk result (λ id. id ≡ self.old.tree.made) }
        ensures made { OnOk result (Follows self.old self.new
            (made_node (unwrap_or document self.old.tree.made) label content)) }
        ensures kept { OnErr result (CoversAhead self.old self.new) }
        ensures labelled { KeepsLabels self.old self.new }
        ensures parts { self.new ≡ record self.old {
          tree = self.new.tree;
          ranges = self.new.ranges;
        } }
        ensures whole { IsWhole self.new }
    {
        self.ranges.cover(self.tree.made() + 1)?;
        self.tree.make(label, content, document)
    }
}
