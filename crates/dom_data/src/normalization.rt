//! Merging adjacent Texts (DOM Standard, "Interface Node", normalize).

ghost use Rattle.std.specs.Prelude.{◌≡◌, ◌≤◌, ℕ, ◌<◌, ◌+◌, ◌++◌, true, length, drop, if◌then◌else◌, Some, OnOk, IfOk};
ghost use Rattle.dom_model.specs.declared.Kind.TheVariants.{Text};
ghost use Rattle.dom_model.specs.PlainLists.Lists.{hits, among};
ghost use Rattle.dom_model.specs.Forests.Forest.{HasNode, parent_of, index_of, inclusive_descendants};
ghost use Rattle.dom_model.specs.Forests.Nodes.{is_of_kind};
ghost use Rattle.dom_model.specs.DataAndCopies.Data.{data_of, replace_data, following_texts, is_descendant, join_following, normalize_text, normalize_each, normalize};
ghost use Rattle.dom_ranges.specs.Tables.{live_nodes};
ghost use Rattle.dom_model.specs.TokenText.Edits.{normalize_edits};
ghost use Rattle.dom_model.specs.DataAndCopies.Joinable.{AreJoinable};
ghost use Rattle.dom_edit.specs.Whole.{IsWhole, Follows, unwatched};
ghost use Rattle.dom_edit.specs.Markers.{StandByEdits};
ghost use Rattle.dom_data.specs.KeptNumbers.{KeepsNumbers};
ghost use Rattle.dom_data.specs.TextsAlone.{alone, texts_among};
ghost use Rattle.dom_data.specs.JoinedTexts.{is_told_by_parent, next_text, texts_behind, data_among, IsNextTaken, taken_in, each_taken_in};

use crate::bodies::kind_in;
use crate::character_data::replace_units;
use dom_edit::{Content, World, data_in};
use dom_kinds::Kind;
use dom_tree::{NodeId, Tree};
use dom_units::Units;
use std::alloc::{AllocError, Global};

// Appends a node to a list, if it is a Text.
fn append_text(
    tree: &Tree<Content>,
    node: NodeId,
    texts: &mut Vec<NodeId>,
) -> Result<(), AllocError>
    requires held { HasNode tree.now.forest node }
    ensures { OnOk result (texts.new.items ≡ texts.old.items ++ alone tree.now.forest node) }
{
    if kind_in(tree, node) != Kind::Text {
        return Ok(());
    }
    texts.push(node)?;
    Ok(())
}

// Returns the Texts below a node, in tree order.
fn texts_below(tree: &Tree<Content>, alloc: Global, top: NodeId) -> Result<Vec<NodeId>, AllocError>
    requires held { HasNode tree.now.forest top }
    ensures { IfOk result (λ texts. texts.items ≡ texts_among tree.now.forest
        (drop 1 (inclusive_descendants tree.now.forest top))) }
{
    tree.state_law();
    let mut texts = Vec::new(alloc);
    let mut here = top;
    while let Some(next) = tree.next_inside(top, here) {
        append_text(tree, next, &mut texts)?;
        here = next;
    }
    Ok(texts)
}

// Returns the next sibling, if it is a Text.
fn next_text(tree: &Tree<Content>, node: NodeId) -> Option<NodeId>
    requires held { HasNode tree.now.forest node }
    ensures { result ≡ next_text tree.now.forest node }
{
    tree.state_law();
    match tree.next(node) {
        Some(next) if tree.is_of_kind(next, Kind::Text) => Some(next),
        _ => None,
    }
}

// Returns the Texts that follow a node among its siblings without a gap.
fn texts_behind(
    tree: &Tree<Content>,
    alloc: Global,
    node: NodeId,
) -> Result<Vec<NodeId>, AllocError>
    requires held { HasNode tree.now.forest node }
    ensures { IfOk result (λ texts. texts.items ≡ texts_behind tree.now.forest node) }
{
    tree.state_law();
    let mut texts = Vec::new(alloc);
    let mut here = node;
    while let Some(next) = next_text(tree, here) {
        texts.push(next)?;
        here = next;
    }
    Ok(texts)
}

// Returns the concatenated data of these nodes.
fn data_among(tree: &Tree<Content>, alloc: Global, nodes: &[NodeId]) -> Result<Units, AllocError>
    requires held { (n : ℕ) → 0 < hits n nodes.now → HasNode tree.now.forest n }
    ensures { IfOk result (λ units. units ≡ data_among tree.now.forest nodes.now) }
{
    let mut data = Units::new(alloc);
    for node in nodes {
        let end = data.len();
        data.splice(end, 0, data_in(tree, *node))?;
    }
    Ok(data)
}

/// Returns the index of a child if an end is in its parent; otherwise no end needs it.
pub(crate) fn index_if_needed(world: &World, parent: NodeId, child: NodeId) -> usize
    requires held { HasNode world.now.tree.forest child }
    ensures asked { among parent (live_nodes world.now.ranges) ≡ true →
        result ≡ index_of world.now.tree.forest child }
    ensures within { result ≤ index_of world.now.tree.forest child }
{
    if world.ranges.stands_in(parent) {
        return world.tree.index(child);
    }
    0
}

// Moves the ends in and at the next Text into the one before it, and removes it. Returns the offset at which the data of the Text after that begins.
fn take_in(
    world: &mut World,
    node: NodeId,
    parent: NodeId,
    next: NodeId,
    base: usize,
) -> Result<usize, AllocError>
    requires whole { IsWhole world.old }
    requires next { IsNextTaken world.old node parent base next }
    ensures taken { OnOk result (Follows world.old world.new (taken_in node base next)) }
    ensures further { IfOk result (λ further. further
        ≡ base + length (data_of (unwatched world.old) next)) }
    ensures kept { KeepsNumbers world.old world.new }
    ensures whole { IsWhole world.new }
{
    let length = data_in(&world.tree, next).len();
    // a law: the units that the node has by now fit the memory
    let _ = data_in(&world.tree, node).len();
    let index = index_if_needed(world, parent, next);
    world.ranges.merged(next, node, base, parent, index);
    world.remove(next)?;
    Ok(base + length)
}

// Does so for each following Text, whose data the node already has from `base` on.
fn take_each_in(
    world: &mut World,
    node: NodeId,
    parent: NodeId,
    base: usize,
    texts: &[NodeId],
) -> Result<(), AllocError>
    requires whole { IsWhole world.old }
    requires joinable { AreJoinable (unwatched world.old) node parent base texts.now }
    ensures taken { OnOk result (Follows world.old world.new (each_taken_in node base texts.now)) }
    ensures kept { KeepsNumbers world.old world.new }
    ensures whole { IsWhole world.new }
{
    let mut further = base;
    for text in texts {
        further = take_in(world, node, parent, *text, further)?;
    }
    Ok(())
}

// Appends units to the data of a Text.
fn append_units(
    world: &mut World,
    alloc: Global,
    node: NodeId,
    added: &[u16],
) -> Result<(), AllocError>
    requires whole { IsWhole world.old }
    requires kind { is_of_kind Text world.old.tree.forest node ≡ true }
    ensures appended { OnOk result (Follows world.old world.new (λ w.
        replace_data node (length (data_of w node)) 0 added.now w)) }
    ensures kept { KeepsNumbers world.old world.new }
    ensures whole { IsWhole world.new }
{
    let end = data_in(&world.tree, node).len();
    replace_units(world, alloc, node, end, 0, added)
}

// Merges a child that is a Text with those that follow it.
fn join_siblings(
    world: &mut World,
    alloc: Global,
    node: NodeId,
    parent: NodeId,
) -> Result<(), AllocError>
    requires whole { IsWhole world.old }
    requires kind { is_of_kind Text world.old.tree.forest node ≡ true }
    requires child { parent_of world.old.tree.forest node ≡ Some parent }
    ensures joined { OnOk result (Follows world.old world.new (λ w.
        join_following node (following_texts w node) w)) }
    ensures kept { KeepsNumbers world.old world.new }
    ensures whole { IsWhole world.new }
{
    let texts = texts_behind(&world.tree, alloc, node)?;
    let added = data_among(&world.tree, alloc, &texts)?;
    let base = data_in(&world.tree, node).len();
    append_units(world, alloc, node, added.units())?;
    take_each_in(world, node, parent, base, &texts)
}

// Merges a Text with those that follow it among its siblings. Queues the record of its data even if none follows.
fn join_following(world: &mut World, alloc: Global, node: NodeId) -> Result<(), AllocError>
    requires whole { IsWhole world.old }
    requires kind { is_of_kind Text world.old.tree.forest node ≡ true }
    ensures joined { OnOk result (Follows world.old world.new (λ w.
        join_following node (following_texts w node) w)) }
    ensures kept { KeepsNumbers world.old world.new }
    ensures whole { IsWhole world.new }
{
    match world.tree.parent(node) {
        Some(parent) => join_siblings(world, alloc, node, parent),
        None => append_units(world, alloc, node, &[]),
    }
}

// Removes a Text without data, and merges any other with those that follow it.
fn normalize_text(world: &mut World, alloc: Global, node: NodeId) -> Result<(), AllocError>
    requires whole { IsWhole world.old }
    requires kind { is_of_kind Text world.old.tree.forest node ≡ true }
    ensures normalized { OnOk result (Follows world.old world.new (normalize_text node)) }
    ensures kept { KeepsNumbers world.old world.new }
    ensures whole { IsWhole world.new }
{
    if data_in(&world.tree, node).len() == 0 {
        world.remove(node)
    } else {
        join_following(world, alloc, node)
    }
}

// Does so for a Text that is still below a node, so has a parent.
fn normalize_below(
    world: &mut World,
    alloc: Global,
    top: NodeId,
    node: NodeId,
) -> Result<(), AllocError>
    requires whole { IsWhole world.old }
    requires kind { is_of_kind Text world.old.tree.forest node ≡ true }
    requires told { is_told_by_parent world.old.tree.forest top node }
    ensures normalized { OnOk result (Follows world.old world.new (λ w. if is_descendant w top node
        then normalize_text node w else w)) }
    ensures kept { KeepsNumbers world.old world.new }
    ensures whole { IsWhole world.new }
{
    if world.tree.parent(node).is_some() {
        normalize_text(world, alloc, node)
    } else {
        Ok(())
    }
}

// Does so for each of these Texts in turn.
fn normalize_each(
    world: &mut World,
    alloc: Global,
    top: NodeId,
    texts: &[NodeId],
) -> Result<(), AllocError>
    requires whole { IsWhole world.old }
    requires kinds { (n : ℕ) → 0 < hits n texts.now →
        is_of_kind Text world.old.tree.forest n ≡ true }
    requires told { (n : ℕ) → 0 < hits n texts.now → is_told_by_parent world.old.tree.forest top n }
    ensures normalized { OnOk result (Follows world.old world.new (normalize_each top texts.now)) }
    ensures kept { KeepsNumbers world.old world.new }
    ensures whole { IsWhole world.new }
{
    for text in texts {
        normalize_below(world, alloc, top, *text)?;
    }
    Ok(())
}

/// Removes the empty Texts below a node, and merges each other Text there with those that follow it ("normalize").
pub fn normalize(world: &mut World, alloc: Global, node: NodeId) -> Result<(), AllocError>
    requires whole { IsWhole world.old }
    requires held { HasNode world.old.tree.forest node }
    ensures normalized { OnOk result (Follows world.old world.new (normalize node)) }
    ensures markers { OnOk result (StandByEdits world.old world.new (normalize_edits node)) }
    ensures kept { KeepsNumbers world.old world.new }
    ensures whole { IsWhole world.new }
{
    let texts = texts_below(&world.tree, alloc, node)?;
    normalize_each(world, alloc, node, &texts)
}
