//! Pieces of contents: units of a node, and children, moved or copied (DOM Standard, "Interface Range").

ghost use Rattle.std.specs.Prelude.{◌≡◌, ◌≤◌, ◌∷◌, [], length, true, false, None, IsSome, IfOk, OnOk};
ghost use Rattle.dom_model.specs.declared.Kind.TheVariants.{Document};
ghost use Rattle.dom_model.specs.Forests.Forest.{HasNode, entry_in, parent_of};
ghost use Rattle.dom_model.specs.Forests.Kinds.{is_character_data};
ghost use Rattle.dom_model.specs.Forests.Texts.{substring};
ghost use Rattle.dom_model.specs.Forests.Nodes.{is_of_kind, kind_passes};
ghost use Rattle.dom_model.specs.MutationAlgorithms.Editing.{append};
ghost use Rattle.dom_model.specs.MutationAlgorithms.Insertable.{IsInsertable};
ghost use Rattle.dom_model.specs.DataAndCopies.Data.{content_in, data_of};
ghost use Rattle.dom_model.specs.DataAndCopies.Clones.{clone_node};
ghost use Rattle.dom_model.specs.RangesAndContents.Contents.{new_fragment, clone_with, cut_if, units_into, child_into, children_into};
ghost use Rattle.dom_edit.specs.Insertion.{IsUnreferred};
ghost use Rattle.dom_edit.specs.Whole.{IsWhole, Follows, unwatched};
ghost use Rattle.dom_edit.specs.KeptNodes.{KeepsLabels};
ghost use Rattle.dom_edit.specs.OlderNodes.{LeavesAll, LeavesOlder, IsFragmentOrRoot};
ghost use Rattle.dom_content.specs.Paths.{HasNumbers, Stays, KindsStay, DataStays};
ghost use Rattle.dom_content.specs.DrawConditions.{MayDraw};

use dom_clone::clone_node;
use dom_data::replace_data_checked;
use dom_edit::{Content, World, data_in, document_in};
use dom_kinds::{Kind, Label};
use dom_tree::{NodeId, Tree};
use dom_units::{Units, units_within};
use std::alloc::{AllocError, Global};

// Makes a fragment without children in a document. It gets the next number.
pub(crate) fn new_fragment(world: &mut World, document: NodeId) -> Result<NodeId, AllocError>
    requires whole { IsWhole world.old }
    requires document_kind { is_of_kind Document world.old.tree.forest document ≡ true }
    requires room { HasNumbers world.old (new_fragment document) }
    ensures number { IfOk result (λ id. id ≡ world.old.tree.made) }
    ensures made { OnOk result (Follows world.old world.new (new_fragment document)) }
    ensures made_held { OnOk result (HasNode world.new.tree.forest world.old.tree.made) }
    ensures stays { OnOk result (Stays world.old world.new) }
    ensures texts { OnOk result (DataStays world.old world.new) }
    ensures left { LeavesAll world.old world.new }
    ensures kept { KeepsLabels world.old world.new }
    ensures whole { IsWhole world.new }
{
    let label = Label::nameless(Kind::DocumentFragment);
    world.make(label, Content::nothing(), Some(document))
}

// Appends a new node, or the children of a new fragment, to a parent that may have it. No live range end is inside it.
pub(crate) fn put_last(
    world: &mut World,
    alloc: Global,
    parent: NodeId,
    node: NodeId,
) -> Result<(), AllocError>
    requires whole { IsWhole world.old }
    requires allowed { IsInsertable world.old.tree.forest node parent None }
    requires unreferred { IsUnreferred world.old node }
    ensures appended { OnOk result (Follows world.old world.new (append node parent)) }
    ensures stays { OnOk result (Stays world.old world.new) }
    ensures kinds { OnOk result (KindsStay world.old world.new) }
    ensures texts { OnOk result (DataStays world.old world.new) }
    ensures left { IsFragmentOrRoot world.old.tree.forest node →
        LeavesOlder (parent ∷ node ∷ []) world.old world.new }
    ensures kept { KeepsLabels world.old world.new }
    ensures whole { IsWhole world.new }
{
    world.insert_unreferred(alloc, parent, node, None)
}

// Moves a node from its parent to the end of another that may have it.
fn move_last(
    world: &mut World,
    alloc: Global,
    parent: NodeId,
    node: NodeId,
) -> Result<(), AllocError>
    requires whole { IsWhole world.old }
    requires allowed { IsInsertable world.old.tree.forest node parent None }
    requires child { IsSome (parent_of world.old.tree.forest node) }
    ensures moved { OnOk result (Follows world.old world.new (append node parent)) }
    ensures stays { OnOk result (Stays world.old world.new) }
    ensures kept { KeepsLabels world.old world.new }
    ensures whole { IsWhole world.new }
{
    world.insert(alloc, parent, node, None)
}

// Copies a node, with its descendants if the copy is deep. The copy gets the next number.
pub(crate) fn copy_of(
    world: &mut World,
    alloc: Global,
    node: NodeId,
    deep: bool,
) -> Result<NodeId, AllocError>
    requires whole { IsWhole world.old }
    requires held { HasNode world.old.tree.forest node }
    requires room { HasNumbers world.old (clone_node deep node) }
    ensures number { IfOk result (λ id. id ≡ world.old.tree.made) }
    ensures copied { OnOk result (Follows world.old world.new (clone_node deep node)) }
    ensures copy_held { OnOk result (HasNode world.new.tree.forest world.old.tree.made) }
    ensures stays { OnOk result (Stays world.old world.new) }
    ensures kinds { OnOk result (KindsStay world.old world.new) }
    ensures texts { OnOk result (DataStays world.old world.new) }
    ensures root { OnOk result (parent_of world.new.tree.forest world.old.tree.made ≡ None) }
    ensures left { LeavesAll world.old world.new }
    ensures kept { KeepsLabels world.old world.new }
    ensures whole { IsWhole world.new }
{
    clone_node(world, alloc, node, deep)
}

// Returns at most a number of units of a node's data, from an offset within it on.
fn part_of(
    tree: &Tree<Content>,
    alloc: Global,
    node: NodeId,
    offset: usize,
    count: usize,
) -> Result<Units, AllocError>
    requires held { HasNode tree.now.forest node }
    requires within { offset ≤ length (content_in (entry_in tree.now.forest node)).text }
    ensures { IfOk result (λ units. units ≡ substring offset count
        (content_in (entry_in tree.now.forest node)).text) }
{
    let data = data_in(tree, node);
    let count = count.min(data.len() - offset);
    Units::from_units(alloc, units_within(data, offset, count))
}

// Copies a node's label and attributes, with other data. The copy gets the next number.
fn copy_with(
    world: &mut World,
    alloc: Global,
    node: NodeId,
    units: Units,
) -> Result<NodeId, AllocError>
    requires whole { IsWhole world.old }
    requires held { HasNode world.old.tree.forest node }
    requires room { HasNumbers world.old (clone_with units node) }
    ensures number { IfOk result (λ id. id ≡ world.old.tree.made) }
    ensures copied { OnOk result (Follows world.old world.new (clone_with units node)) }
    ensures copy_held { OnOk result (HasNode world.new.tree.forest world.old.tree.made) }
    ensures stays { OnOk result (Stays world.old world.new) }
    ensures kinds { OnOk result (KindsStay world.old world.new) }
    ensures texts { OnOk result (DataStays world.old world.new) }
    ensures root { OnOk result (parent_of world.new.tree.forest world.old.tree.made ≡ None) }
    ensures left { LeavesAll world.old world.new }
    ensures kept { KeepsLabels world.old world.new }
    ensures whole { IsWhole world.new }
{
    let label = world.tree.label(node).try_clone(alloc)?;
    let attrs = world.tree.body(node).copied_attributes(alloc)?;
    let document = document_in(&world.tree, node);
    let content = Content::new(alloc, units, attrs)?;
    world.make(label, content, Some(document))
}

// Removes units of a node's data, from an offset within it on, if the contents are moved.
fn cut_if(
    world: &mut World,
    alloc: Global,
    moves: bool,
    node: NodeId,
    offset: usize,
    count: usize,
) -> Result<(), AllocError>
    requires whole { IsWhole world.old }
    requires kind { kind_passes is_character_data world.old.tree.forest node ≡ true }
    requires within { offset ≤ length (data_of (unwatched world.old) node) }
    ensures cut { OnOk result (Follows world.old world.new (cut_if moves node offset count)) }
    ensures stays { OnOk result (Stays world.old world.new) }
    ensures left { moves ≡ false → world.new ≡ world.old }
    ensures kept { KeepsLabels world.old world.new }
    ensures whole { IsWhole world.new }
{
    if !moves {
        return Ok(());
    }
    replace_data_checked(world, alloc, node, offset, count, &[])
}

// Puts a copy of a node with data into a fragment, with `count` of its units from `offset` on; cuts these if the contents are moved.
pub(crate) fn units_into(
    world: &mut World,
    alloc: Global,
    moves: bool,
    into: NodeId,
    node: NodeId,
    offset: usize,
    count: usize,
) -> Result<(), AllocError>
    requires whole { IsWhole world.old }
    requires may { MayDraw world.old into [] }
    requires kind { kind_passes is_character_data world.old.tree.forest node ≡ true }
    requires within { offset ≤ length (data_of (unwatched world.old) node) }
    requires room { HasNumbers world.old (units_into moves into node offset count) }
    ensures drawn { OnOk result (Follows world.old world.new
        (units_into moves into node offset count)) }
    ensures stays { OnOk result (Stays world.old world.new) }
    ensures left { moves ≡ false → LeavesOlder (into ∷ []) world.old world.new }
    ensures kept { KeepsLabels world.old world.new }
    ensures whole { IsWhole world.new }
{
    let units = part_of(&world.tree, alloc, node, offset, count)?;
    let copy = copy_with(world, alloc, node, units)?;
    put_last(world, alloc, into, copy)?;
    cut_if(world, alloc, moves, node, offset, count)
}

// Appends a node to a fragment or, if the contents are copied, a copy of it with its descendants.
pub(crate) fn child_into(
    world: &mut World,
    alloc: Global,
    moves: bool,
    into: NodeId,
    node: NodeId,
) -> Result<(), AllocError>
    requires whole { IsWhole world.old }
    requires may { MayDraw world.old into (node ∷ []) }
    requires held { HasNode world.old.tree.forest node }
    requires room { HasNumbers world.old (child_into moves into node) }
    ensures drawn { OnOk result (Follows world.old world.new (child_into moves into node)) }
    ensures stays { OnOk result (Stays world.old world.new) }
    ensures left { moves ≡ false → LeavesOlder (into ∷ []) world.old world.new }
    ensures kept { KeepsLabels world.old world.new }
    ensures whole { IsWhole world.new }
{
    if moves {
        return move_last(world, alloc, into, node);
    }
    let copy = copy_of(world, alloc, node, true)?;
    put_last(world, alloc, into, copy)
}

// Does so for each of these nodes in turn.
pub(crate) fn children_into(
    world: &mut World,
    alloc: Global,
    moves: bool,
    into: NodeId,
    nodes: &[NodeId],
) -> Result<(), AllocError>
    requires whole { IsWhole world.old }
    requires may { MayDraw world.old into nodes.now }
    requires room { HasNumbers world.old (children_into moves into nodes.now) }
    ensures drawn { OnOk result (Follows world.old world.new (children_into moves into nodes.now)) }
    ensures stays { OnOk result (Stays world.old world.new) }
    ensures left { moves ≡ false → LeavesOlder (into ∷ []) world.old world.new }
    ensures kept { KeepsLabels world.old world.new }
    ensures whole { IsWhole world.new }
{
    for node in nodes {
        child_into(world, alloc, moves, into, *node)?;
    }
    Ok(())
}
