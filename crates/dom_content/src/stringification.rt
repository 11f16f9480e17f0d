//! The text of a live range (DOM Standard, "Interface Range", stringification).

ghost use Rattle.std.specs.Prelude.{◌≡◌, ◌-◌, ◌≤◌, ◌++◌, length, true, false, IfOk, OnOk, IfSome, IsSome};
ghost use Rattle.dom_model.specs.declared.Kind.TheVariants.{Text};
ghost use Rattle.dom_model.specs.Forests.Forest.{HasNode, entry_in, root_of};
ghost use Rattle.dom_model.specs.Soundness.Sound.{IsRange};
ghost use Rattle.dom_model.specs.Forests.Nodes.{is_of_kind};
ghost use Rattle.dom_model.specs.RangesAndContents.Ranges.{is_before};
ghost use Rattle.dom_model.specs.RangesAndContents.Contents.{range_text};
ghost use Rattle.dom_model.specs.DataAndCopies.Data.{content_in};
ghost use Rattle.dom_model.specs.TokenText.Tokens.{texts_of};
ghost use Rattle.dom_model.specs.TokenText.Gaps.{text_among};
ghost use Rattle.dom_model.specs.TokenText.Between.{text_of_range};
ghost use Rattle.dom_ranges.specs.Tables.{range_in};
ghost use Rattle.dom_edit.specs.Whole.{IsWhole, unwatched};
ghost use Rattle.dom_content.specs.RangeTexts.{part_of, part_behind, text_within, texts_within};

use crate::contained::last_ahead;
use dom_edit::{Content, World, data_in};
use dom_kinds::Kind;
use dom_point::Point;
use dom_ranges::RangeId;
use dom_tree::{NodeId, Tree};
use dom_units::{Units, units_within};
use std::alloc::{AllocError, Global};

// Appends a part of the data of a node to a text, if the node is a Text.
fn append_part(
    tree: &Tree<Content>,
    node: NodeId,
    from: usize,
    to: usize,
    text: &mut Units,
) -> Result<(), AllocError>
    requires held { HasNode tree.now.forest node }
    requires ahead { is_of_kind Text tree.now.forest node ≡ true → from ≤ to }
    requires within { is_of_kind Text tree.now.forest node ≡ true →
        to ≤ length (content_in (entry_in tree.now.forest node)).text }
    ensures { OnOk result (text.new ≡ text.old ++ part_of tree.now.forest node from (to - from)) }
{
    if !tree.is_of_kind(node, Kind::Text) {
        return Ok(());
    }
    let end = text.len();
    text.splice(end, 0, units_within(data_in(tree, node), from, to - from))
}

// Appends the data of a node from a point on to a text, if the node is a Text.
fn append_tail(tree: &Tree<Content>, from: Point, text: &mut Units) -> Result<(), AllocError>
    requires held { HasNode tree.now.forest from.node }
    requires within { is_of_kind Text tree.now.forest from.node ≡ true →
        from.offset ≤ length (content_in (entry_in tree.now.forest from.node)).text }
    ensures { OnOk result (text.new ≡ text.old ++ part_behind tree.now.forest from) }
{
    let Point { node, offset } = from;
    let length = data_in(tree, node).len();
    append_part(tree, node, offset, length, text)
}

// Appends the data of a node between the ends of a range to a text, if it is a contained Text. A Text has no children, so only the end's node can be
// one with the end inside.
fn append_contained(
    tree: &Tree<Content>,
    start: Point,
    end: Point,
    node: NodeId,
    text: &mut Units,
) -> Result<(), AllocError>
    requires held { HasNode tree.now.forest node }
    requires range { IsRange tree.now.forest (record { start = start; end = end }) }
    requires one_root { root_of tree.now.forest node ≡ root_of tree.now.forest start.node }
    requires behind { is_before tree.now.forest start (record { node = node; offset = 0 }) ≡ true }
    requires not_past { is_before tree.now.forest end (record { node = node; offset = 0 }) ≡ false }
    ensures { OnOk result (text.new ≡ text.old ++ text_within tree.now.forest
        (record { start = start; end = end }) node) }
{
    tree.state_law();
    if node == end.node {
        return Ok(());
    }
    append_tail(tree, Point { node, offset: 0 }, text)
}

// Appends the data of the contained Texts to a text. Walks from the last node before the start to the last before the end.
fn append_between(
    tree: &Tree<Content>,
    start: Point,
    end: Point,
    text: &mut Units,
) -> Result<(), AllocError>
    requires range { IsRange tree.now.forest (record { start = start; end = end }) }
    ensures { OnOk result (text.new ≡ text.old ++ texts_within tree.now.forest
        (record { start = start; end = end })) }
{
    tree.state_law();
    let root = tree.root(start.node);
    let stop = last_ahead(tree, end);
    let mut here = last_ahead(tree, start);
    while here != stop {
        let next = tree.next_inside(root, here).unwrap();
        append_contained(tree, start, end, next, text)?;
        here = next;
    }
    Ok(())
}

// Collects the data of the Texts in a live range, cut at its ends.
fn gather_text(world: &World, alloc: Global, range: RangeId) -> Result<Units, AllocError>
    requires whole { IsWhole world.now }
    requires held { IsSome (range_in world.now.ranges range) }
    ensures { IfOk result (λ text. IfSome (range_in world.now.ranges range) (λ r. text
        ≡ range_text (unwatched world.now) r)) }
{
    let tree = &world.tree;
    let (start, end) = world.ranges.ends(range);
    let mut text = Units::new(alloc);
    if start.node == end.node && tree.is_of_kind(start.node, Kind::Text) {
        append_part(tree, start.node, start.offset, end.offset, &mut text)?;
        return Ok(text);
    }
    append_tail(tree, start, &mut text)?;
    append_between(tree, start, end, &mut text)?;
    append_part(tree, end.node, 0, end.offset, &mut text)?;
    Ok(text)
}

/// Returns the data of the Texts in a live range, cut at its ends.
///
/// In the token text of the root these are the units between the markers of its ends.
pub fn range_text(world: &World, alloc: Global, range: RangeId) -> Result<Units, AllocError>
    requires whole { IsWhole world.now }
    requires held { IsSome (range_in world.now.ranges range) }
    ensures text { IfOk result (λ text. IfSome (range_in world.now.ranges range) (λ r. text
        ≡ range_text (unwatched world.now) r)) }
    ensures between { IfOk result (λ text. IfSome (range_in world.now.ranges range) (λ r.
        IfSome (root_of world.now.tree.forest r.start.node)
        (λ root. text ≡ text_of_range (unwatched world.now) range
        (text_among root (texts_of (unwatched world.now)))))) }
{
    gather_text(world, alloc, range)
}
