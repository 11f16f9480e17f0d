//! Partially contained nodes: each is copied, and the copy is filled and finished (DOM Standard, "Interface Range", extract, clone the contents).

ghost use Rattle.std.specs.Prelude.{◌≡◌, ◌∷◌, [], false, IfOk, OnOk};
ghost use Rattle.dom_model.specs.Worlds.World as model;
ghost use Rattle.dom_model.specs.Forests.Forest.{HasNode};
ghost use Rattle.dom_model.specs.Forests.Kinds.{is_character_data};
ghost use Rattle.dom_model.specs.Forests.Nodes.{kind_passes};
ghost use Rattle.dom_model.specs.RangesAndContents.Contents.{children_into, copy_into};
ghost use Rattle.dom_edit.specs.Whole.{IsWhole, Keeps, Follows};
ghost use Rattle.dom_edit.specs.KeptNodes.{KeepsLabels};
ghost use Rattle.dom_edit.specs.OlderNodes.{LeavesOlder};
ghost use Rattle.dom_content.specs.Paths.{HasNumbers, Stays, DataStays, opened, inner_of, closed_one, closed_all, IsBegunFor, numbers_of_copies};
ghost use Rattle.dom_content.specs.DrawConditions.{MayDraw, MayClose};

use crate::content_pieces::{children_into, copy_of, new_fragment, put_last};
use dom_edit::{World, document_in};
use dom_tree::NodeId;
use smallvec::SmallVec;
use std::alloc::{AllocError, Global};
use std::default::MadeWith;

// A partially contained node: its copy, the fragment that fills the copy, and the children that are put into the fragment last.
#[derive(Drop)]
pub(crate) struct Partial {
    copy: NodeId,
    pub inner: NodeId,
    children: Vec<NodeId>,
}

/// The partially contained nodes on a path. A short path takes no memory.
pub(crate) type Partials = SmallVec<Partial, 8>;

impl MadeWith<Global> for Partial {
    // Returns an empty entry, for a place that is not used.
    fn made_with(alloc: Global) -> Self {
        Partial {
            copy: NodeId::new(0),
            inner: NodeId::new(0),
            children: Vec::new(alloc),
        }
    }
}

// Appends a copy of a node to a fragment, and makes a further fragment.
pub(crate) fn open_partial(
    world: &mut World,
    alloc: Global,
    into: NodeId,
    node: NodeId,
    children: Vec<NodeId>,
) -> Result<Partial, AllocError>
    requires whole { IsWhole world.old }
    requires may { MayDraw world.old into (node ∷ children.items) }
    requires no_data { kind_passes is_character_data world.old.tree.forest node ≡ false }
    requires held { HasNode world.old.tree.forest node }
    requires room { HasNumbers world.old (opened into node) }
    ensures copy { IfOk result (λ p. p.copy ≡ world.old.tree.made) }
    ensures inner { IfOk result (λ p. (w : model.World) → Keeps world.old w →
        p.inner ≡ inner_of into node w) }
    ensures children { IfOk result (λ p. p.children.items ≡ children.items) }
    ensures opened { OnOk result (Follows world.old world.new (opened into node)) }
    ensures stays { OnOk result (Stays world.old world.new) }
    ensures texts { OnOk result (DataStays world.old world.new) }
    ensures begun { IfOk result (IsBegunFor into world.old) }
    ensures left { LeavesOlder (into ∷ []) world.old world.new }
    ensures kept { KeepsLabels world.old world.new }
    ensures whole { IsWhole world.new }
{
    let document = document_in(&world.tree, node);
    let copy = copy_of(world, alloc, node, false)?;
    put_last(world, alloc, into, copy)?;
    let inner = new_fragment(world, document)?;
    Ok(Partial {
        copy,
        inner,
        children,
    })
}

// Puts the remaining children into the further fragment, and that into the copy.
fn close_partial(
    world: &mut World,
    alloc: Global,
    moves: bool,
    partial: &Partial,
) -> Result<(), AllocError>
    requires whole { IsWhole world.old }
    requires may { MayClose world.old (partial.now ∷ []) }
    requires room { HasNumbers world.old (closed_one moves partial.now) }
    ensures closed { OnOk result (Follows world.old world.new (closed_one moves partial.now)) }
    ensures stays { OnOk result (Stays world.old world.new) }
    ensures left { moves ≡ false → LeavesOlder (partial.now.copy ∷ partial.now.inner ∷ []) world.old
        world.new }
    ensures kept { KeepsLabels world.old world.new }
    ensures whole { IsWhole world.new }
{
    children_into(world, alloc, moves, partial.inner, &partial.children)?;
    put_last(world, alloc, partial.copy, partial.inner)
}

// Does so for several, the last one first.
pub(crate) fn close_all(
    world: &mut World,
    alloc: Global,
    moves: bool,
    mut partials: Partials,
) -> Result<(), AllocError>
    requires whole { IsWhole world.old }
    requires may { MayClose world.old partials.items }
    requires room { HasNumbers world.old (closed_all moves partials.items) }
    ensures closed { OnOk result (Follows world.old world.new (closed_all moves partials.items)) }
    ensures stays { OnOk result (Stays world.old world.new) }
    ensures left { moves ≡ false → LeavesOlder (numbers_of_copies partials.items) world.old
        world.new }
    ensures kept { KeepsLabels world.old world.new }
    ensures whole { IsWhole world.new }
{
    while let Some(partial) = partials.pop() {
        close_partial(world, alloc, moves, &partial)?;
    }
    Ok(())
}

// Puts a copy of a node into a fragment, with some of its children.
pub(crate) fn copy_into(
    world: &mut World,
    alloc: Global,
    moves: bool,
    into: NodeId,
    node: NodeId,
    children: Vec<NodeId>,
) -> Result<(), AllocError>
    requires whole { IsWhole world.old }
    requires may { MayDraw world.old into (node ∷ children.items) }
    requires no_data { kind_passes is_character_data world.old.tree.forest node ≡ false }
    requires held { HasNode world.old.tree.forest node }
    requires room { HasNumbers world.old (copy_into into node (λ inner v.
        children_into moves inner children.items v)) }
    ensures copied { OnOk result (Follows world.old world.new
        (copy_into into node (λ inner v. children_into moves inner children.items v))) }
    ensures stays { OnOk result (Stays world.old world.new) }
    ensures left { moves ≡ false → LeavesOlder (into ∷ []) world.old world.new }
    ensures kept { KeepsLabels world.old world.new }
    ensures whole { IsWhole world.new }
{
    let partial = open_partial(world, alloc, into, node, children)?;
    close_partial(world, alloc, moves, &partial)
}
