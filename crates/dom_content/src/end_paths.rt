//! The two paths from the common ancestor to the ends of a range: nodes beside them are put into a fragment (DOM Standard, "Interface Range",
//! extract, clone the contents).

ghost use Rattle.std.specs.Prelude.{◌≡◌, ◌-◌, ◌∷◌, [], length, false, IfOk, OnOk};
ghost use Rattle.dom_model.specs.Worlds.World as model;
ghost use Rattle.dom_model.specs.Forests.Forest.{HasNode, entry_in, children_of};
ghost use Rattle.dom_model.specs.Forests.Kinds.{is_character_data};
ghost use Rattle.dom_model.specs.PlainLists.Lists.{past};
ghost use Rattle.dom_model.specs.Forests.Nodes.{kind_passes};
ghost use Rattle.dom_model.specs.DataAndCopies.Data.{content_in};
ghost use Rattle.dom_model.specs.RangesAndContents.Contents.{tail_into, head_into};
ghost use Rattle.dom_edit.specs.Whole.{IsWhole, Keeps, Follows};
ghost use Rattle.dom_edit.specs.KeptNodes.{KeepsLabels};
ghost use Rattle.dom_edit.specs.OlderNodes.{LeavesOlder};
ghost use Rattle.dom_content.specs.Paths.{HasNumbers, Stays, DataStays, opened, inner_of, path_entered, IsBegunFor};
ghost use Rattle.dom_content.specs.DrawConditions.{MayDraw, IsPathTo};

use crate::child_slices::{children_ahead, children_from, children_past, children_until};
use crate::content_pieces::{children_into, units_into};
use crate::partially_contained::{Partial, Partials, close_all, copy_into, open_partial};
use dom_edit::{Content, World, data_in};
use dom_tree::{NodeId, Tree};
use smallvec::SmallVec;
use std::alloc::{AllocError, Global};

// Returns the number of units from an offset on.
fn units_past(tree: &Tree<Content>, node: NodeId, offset: usize) -> usize
    requires held { HasNode tree.now.forest node }
    ensures { result ≡ length (content_in (entry_in tree.now.forest node)).text - offset }
{
    data_in(tree, node).len().saturating_sub(offset)
}

// Opens a node on the path; the children after the next one are left for later.
fn open_tail(
    world: &mut World,
    alloc: Global,
    into: NodeId,
    node: NodeId,
    next: NodeId,
) -> Result<Partial, AllocError>
    requires whole { IsWhole world.old }
    requires may { MayDraw world.old into (node ∷ []) }
    requires no_data { kind_passes is_character_data world.old.tree.forest node ≡ false }
    requires held { HasNode world.old.tree.forest node }
    requires next_held { HasNode world.old.tree.forest next }
    requires room { HasNumbers world.old (opened into node) }
    ensures copy { IfOk result (λ p. p.copy ≡ world.old.tree.made) }
    ensures inner { IfOk result (λ p. (w : model.World) → Keeps world.old w →
        p.inner ≡ inner_of into node w) }
    ensures children { IfOk result (λ p. p.children.items
        ≡ past next (children_of world.old.tree.forest node)) }
    ensures opened { OnOk result (Follows world.old world.new (opened into node)) }
    ensures stays { OnOk result (Stays world.old world.new) }
    ensures texts { OnOk result (DataStays world.old world.new) }
    ensures begun { IfOk result (IsBegunFor into world.old) }
    ensures left { LeavesOlder (into ∷ []) world.old world.new }
    ensures kept { KeepsLabels world.old world.new }
    ensures whole { IsWhole world.new }
{
    let behind = children_past(&world.tree, alloc, node, next)?;
    open_partial(world, alloc, into, node, behind)
}

// Puts the contents after an offset of a node into a fragment.
fn tail_of_last(
    world: &mut World,
    alloc: Global,
    moves: bool,
    into: NodeId,
    offset: usize,
    node: NodeId,
) -> Result<(), AllocError>
    requires whole { IsWhole world.old }
    requires may { MayDraw world.old into (node ∷ []) }
    requires way { IsPathTo world.old.tree.forest offset (node ∷ []) }
    requires held { HasNode world.old.tree.forest node }
    requires room { HasNumbers world.old (tail_into moves into offset (node ∷ [])) }
    ensures drawn { OnOk result (Follows world.old world.new
        (tail_into moves into offset (node ∷ []))) }
    ensures stays { OnOk result (Stays world.old world.new) }
    ensures left { moves ≡ false → LeavesOlder (into ∷ []) world.old world.new }
    ensures kept { KeepsLabels world.old world.new }
    ensures whole { IsWhole world.new }
{
    if world.tree.has_data(node) {
        let count = units_past(&world.tree, node, offset);
        return units_into(world, alloc, moves, into, node, offset, count);
    }
    let behind = children_from(&world.tree, alloc, node, offset)?;
    copy_into(world, alloc, moves, into, node, behind)
}

// Does so along a path that is not empty: its first node, and those below.
fn tail_along(
    world: &mut World,
    alloc: Global,
    moves: bool,
    into: NodeId,
    offset: usize,
    first: NodeId,
    below: &[NodeId],
) -> Result<(), AllocError>
    requires whole { IsWhole world.old }
    requires may { MayDraw world.old into (first ∷ below.now) }
    requires way { IsPathTo world.old.tree.forest offset (first ∷ below.now) }
    requires room { HasNumbers world.old (tail_into moves into offset (first ∷ below.now)) }
    ensures drawn { OnOk result (Follows world.old world.new
        (tail_into moves into offset (first ∷ below.now))) }
    ensures stays { OnOk result (Stays world.old world.new) }
    ensures left { moves ≡ false → LeavesOlder (into ∷ []) world.old world.new }
    ensures kept { KeepsLabels world.old world.new }
    ensures whole { IsWhole world.new }
{
    let mut partials: Partials = SmallVec::new(alloc);
    let mut here = into;
    let mut node = first;
    for next in below {
        let partial = open_tail(world, alloc, here, node, *next)?;
        here = partial.inner;
        node = *next;
        partials.push(partial)?;
    }
    tail_of_last(world, alloc, moves, here, offset, node)?;
    close_all(world, alloc, moves, partials)
}

// Puts everything from an offset of the path's last node to the end of its first into a fragment.
pub(crate) fn tail_into(
    world: &mut World,
    alloc: Global,
    moves: bool,
    into: NodeId,
    offset: usize,
    path: &[NodeId],
) -> Result<(), AllocError>
    requires whole { IsWhole world.old }
    requires may { MayDraw world.old into path.now }
    requires way { IsPathTo world.old.tree.forest offset path.now }
    requires room { HasNumbers world.old (tail_into moves into offset path.now) }
    ensures drawn { OnOk result (Follows world.old world.new
        (tail_into moves into offset path.now)) }
    ensures stays { OnOk result (Stays world.old world.new) }
    ensures left { moves ≡ false → LeavesOlder (into ∷ []) world.old world.new }
    ensures kept { KeepsLabels world.old world.new }
    ensures whole { IsWhole world.new }
{
    match path.split_first() {
        None => Ok(()),
        Some((first, below)) => tail_along(world, alloc, moves, into, offset, *first, below),
    }
}

// Opens a node on the path; the children before the next one are put in at once.
fn open_head(
    world: &mut World,
    alloc: Global,
    moves: bool,
    into: NodeId,
    node: NodeId,
    next: NodeId,
) -> Result<Partial, AllocError>
    requires whole { IsWhole world.old }
    requires may { MayDraw world.old into (node ∷ []) }
    requires no_data { kind_passes is_character_data world.old.tree.forest node ≡ false }
    requires held { HasNode world.old.tree.forest node }
    requires room { HasNumbers world.old (path_entered moves into node next) }
    ensures copy { IfOk result (λ p. p.copy ≡ world.old.tree.made) }
    ensures inner { IfOk result (λ p. (w : model.World) → Keeps world.old w →
        p.inner ≡ inner_of into node w) }
    ensures children { IfOk result (λ p. p.children.items ≡ []) }
    ensures entered { OnOk result (Follows world.old world.new (path_entered moves into node next)) }
    ensures stays { OnOk result (Stays world.old world.new) }
    ensures begun { IfOk result (IsBegunFor into world.old) }
    ensures left { moves ≡ false → LeavesOlder (into ∷ []) world.old world.new }
    ensures kept { KeepsLabels world.old world.new }
    ensures whole { IsWhole world.new }
{
    let ahead = children_ahead(&world.tree, alloc, node, next)?;
    let partial = open_partial(world, alloc, into, node, Vec::new(alloc))?;
    children_into(world, alloc, moves, partial.inner, &ahead)?;
    Ok(partial)
}

// Puts the contents before an offset of a node into a fragment.
fn head_of_last(
    world: &mut World,
    alloc: Global,
    moves: bool,
    into: NodeId,
    offset: usize,
    node: NodeId,
) -> Result<(), AllocError>
    requires whole { IsWhole world.old }
    requires may { MayDraw world.old into (node ∷ []) }
    requires held { HasNode world.old.tree.forest node }
    requires room { HasNumbers world.old (head_into moves into offset (node ∷ [])) }
    ensures drawn { OnOk result (Follows world.old world.new
        (head_into moves into offset (node ∷ []))) }
    ensures stays { OnOk result (Stays world.old world.new) }
    ensures left { moves ≡ false → LeavesOlder (into ∷ []) world.old world.new }
    ensures kept { KeepsLabels world.old world.new }
    ensures whole { IsWhole world.new }
{
    if world.tree.has_data(node) {
        return units_into(world, alloc, moves, into, node, 0, offset);
    }
    let ahead = children_until(&world.tree, alloc, node, offset)?;
    copy_into(world, alloc, moves, into, node, ahead)
}

// Does so along a path that is not empty: its first node, and those below.
fn head_along(
    world: &mut World,
    alloc: Global,
    moves: bool,
    into: NodeId,
    offset: usize,
    first: NodeId,
    below: &[NodeId],
) -> Result<(), AllocError>
    requires whole { IsWhole world.old }
    requires may { MayDraw world.old into (first ∷ below.now) }
    requires way { IsPathTo world.old.tree.forest 0 (first ∷ below.now) }
    requires room { HasNumbers world.old (head_into moves into offset (first ∷ below.now)) }
    ensures drawn { OnOk result (Follows world.old world.new
        (head_into moves into offset (first ∷ below.now))) }
    ensures stays { OnOk result (Stays world.old world.new) }
    ensures left { moves ≡ false → LeavesOlder (into ∷ []) world.old world.new }
    ensures kept { KeepsLabels world.old world.new }
    ensures whole { IsWhole world.new }
{
    let mut partials: Partials = SmallVec::new(alloc);
    let mut here = into;
    let mut node = first;
    for next in below {
        let partial = open_head(world, alloc, moves, here, node, *next)?;
        here = partial.inner;
        node = *next;
        partials.push(partial)?;
    }
    head_of_last(world, alloc, moves, here, offset, node)?;
    close_all(world, alloc, moves, partials)
}

// Puts everything from the start of the path's first node to an offset of its last into a fragment.
pub(crate) fn head_into(
    world: &mut World,
    alloc: Global,
    moves: bool,
    into: NodeId,
    offset: usize,
    path: &[NodeId],
) -> Result<(), AllocError>
    requires whole { IsWhole world.old }
    requires may { MayDraw world.old into path.now }
    requires way { IsPathTo world.old.tree.forest 0 path.now }
    requires room { HasNumbers world.old (head_into moves into offset path.now) }
    ensures drawn { OnOk result (Follows world.old world.new
        (head_into moves into offset path.now)) }
    ensures stays { OnOk result (Stays world.old world.new) }
    ensures left { moves ≡ false → LeavesOlder (into ∷ []) world.old world.new }
    ensures kept { KeepsLabels world.old world.new }
    ensures whole { IsWhole world.new }
{
    match path.split_first() {
        None => Ok(()),
        Some((first, below)) => head_along(world, alloc, moves, into, offset, *first, below),
    }
}
