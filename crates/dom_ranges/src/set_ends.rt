//! Setting live ranges (DOM Standard, "Interface Range").

ghost use Rattle.std.specs.Prelude.{◌≡◌, None, IsSome, OnOk, OnErr};
ghost use Rattle.std.specs.Option.{ForSome};
ghost use Rattle.dom_model.specs.declared.Kind.TheVariants.{DocumentType};
ghost use Rattle.dom_model.specs.Forests.Forest.{HasNode, parent_of};
ghost use Rattle.dom_model.specs.Worlds.World.{Range};
ghost use Rattle.dom_model.specs.Forests.Nodes.{is_of_kind};
ghost use Rattle.dom_model.specs.RangesAndContents.Ranges.{start_set, end_set, check_point, check_parent, check_contents, around, contents_of, collapsed, collapsed_at};
ghost use Rattle.dom_model.specs.Commands.Command.{SelectNode, SelectNodeContents, Collapse};
ghost use Rattle.dom_model.specs.TokenText.Edits.{ends_edits_at};
ghost use Rattle.dom_model.specs.TokenText.CommandEdits.{start_edits, end_edits, command_edits};
ghost use Rattle.dom_ranges.specs.Markers.{RangesMatchEdits, IsNestedAs, IsMeasuredAs, HasPoint, IsAny};
ghost use Rattle.dom_ranges.specs.Tables.{IsCovered, range_in, with_range_set, RangeIsSet, RangeBecomes, StandsIn, result_of_check};

use crate::live_ranges::Ranges;
use crate::range_id::RangeId;
use dom_kinds::{DomError, Kind};
use dom_point::{Point, checked_point, found_before, points_around, same_root};
use dom_tree::{Body, NodeId, Tree};

impl Ranges {
    /// Sets the start. If it is in another tree or past the end, the end moves there too. Caches the indices that it needs.
    pub fn set_start<X: Body>(
        &mut self,
        tree: &mut Tree<X>,
        r: RangeId,
        p: Point,
    ) -> Result<(), DomError>
        requires held { IsSome (range_in self.old r) }
        requires node { HasNode tree.old.forest p.node }
        requires covered { IsCovered self.old p.node }
        requires stands { ForSome (range_in self.old r) (StandsIn tree.old.forest) }
        ensures refusal { result ≡ result_of_check (check_point X.length tree.old.forest p) }
        ensures set { OnOk result (RangeBecomes r (start_set tree.old.forest p) self.old self.new) }
        ensures markers { OnOk result (RangesMatchEdits (IsMeasuredAs X.length tree.old.forest) self.old
            self.new (start_edits r p)) }
        ensures unchanged { OnErr result (self.new ≡ self.old) }
        ensures kept { tree.new ≡ tree.old }
    {
        checked_point(tree, p.node, p.offset)?;
        let (start, end) = self.ends(r);
        if same_root(tree, p.node, start.node) && !found_before(tree, end, p) {
            self.write(r, p, end);
        } else {
            self.collapse_at(r, p);
        }
        Ok(())
    }

    /// Sets the end. If it is in another tree or before the start, the start moves there too. Caches the indices that it needs.
    pub fn set_end<X: Body>(
        &mut self,
        tree: &mut Tree<X>,
        r: RangeId,
        p: Point,
    ) -> Result<(), DomError>
        requires held { IsSome (range_in self.old r) }
        requires node { HasNode tree.old.forest p.node }
        requires covered { IsCovered self.old p.node }
        requires stands { ForSome (range_in self.old r) (StandsIn tree.old.forest) }
        ensures refusal { result ≡ result_of_check (check_point X.length tree.old.forest p) }
        ensures set { OnOk result (RangeBecomes r (end_set tree.old.forest p) self.old self.new) }
        ensures markers { OnOk result (RangesMatchEdits (IsMeasuredAs X.length tree.old.forest) self.old
            self.new (end_edits r p)) }
        ensures unchanged { OnErr result (self.new ≡ self.old) }
        ensures kept { tree.new ≡ tree.old }
    {
        checked_point(tree, p.node, p.offset)?;
        let (start, _) = self.ends(r);
        if same_root(tree, p.node, start.node) && !found_before(tree, p, start) {
            self.write(r, start, p);
        } else {
            self.collapse_at(r, p);
        }
        Ok(())
    }

    /// Sets the range around a node. Refuses a root.
    pub fn select<X>(&mut self, tree: &Tree<X>, r: RangeId, node: NodeId) -> Result<(), DomError>
        requires held { IsSome (range_in self.old r) }
        requires node { HasNode tree.now.forest node }
        requires covered { ForSome (parent_of tree.now.forest node) (IsCovered self.old) }
        ensures refusal { result ≡ result_of_check (check_parent tree.now.forest node) }
        ensures set { OnOk result (RangeIsSet r (around tree.now.forest node) self.old self.new) }
        ensures markers { OnOk result (RangesMatchEdits (IsNestedAs tree.now.forest) self.old self.new
            (command_edits (SelectNode r node))) }
        ensures unchanged { OnErr result (self.new ≡ self.old) }
    {
        if tree.parent(node).is_none() {
            return Err(DomError::InvalidNodeTypeError);
        }
        self.select_checked(tree, r, node);
        Ok(())
    }

    /// Sets the range around a node that has a parent, as [`Ranges::select`] does.
    pub fn select_checked<X>(&mut self, tree: &Tree<X>, r: RangeId, node: NodeId)
        requires held { IsSome (range_in self.old r) }
        requires node { HasNode tree.now.forest node }
        requires allowed { check_parent tree.now.forest node ≡ None }
        requires covered { ForSome (parent_of tree.now.forest node) (IsCovered self.old) }
        ensures set { RangeIsSet r (around tree.now.forest node) self.old self.new }
        ensures markers { RangesMatchEdits (IsNestedAs tree.now.forest) self.old self.new
            (command_edits (SelectNode r node)) }
    {
        let (start, end) = points_around(tree, node).unwrap();
        self.write(r, start, end);
    }

    /// Sets the range around a node's contents. Refuses a doctype.
    pub fn select_contents<X: Body>(
        &mut self,
        tree: &Tree<X>,
        r: RangeId,
        node: NodeId,
    ) -> Result<(), DomError>
        requires held { IsSome (range_in self.old r) }
        requires node { HasNode tree.now.forest node }
        requires covered { IsCovered self.old node }
        ensures refusal { result ≡ result_of_check (check_contents tree.now.forest node) }
        ensures set { OnOk result
            (self.new ≡ with_range_set r (contents_of X.length tree.now.forest node) self.old) }
        ensures markers { OnOk result (RangesMatchEdits (IsMeasuredAs X.length tree.now.forest) self.old
            self.new (command_edits (SelectNodeContents r node))) }
        ensures unchanged { OnErr result (self.new ≡ self.old) }
    {
        if tree.is_of_kind(node, Kind::DocumentType) {
            return Err(DomError::InvalidNodeTypeError);
        }
        let offset = tree.length(node);
        self.write(r, Point { node, offset: 0 }, Point { node, offset });
        Ok(())
    }

    /// Sets both ends to one point.
    pub fn collapse_at(&mut self, r: RangeId, p: Point)
        requires held { IsSome (range_in self.old r) }
        requires covered { IsCovered self.old p.node }
        ensures set { self.new ≡ with_range_set r (collapsed_at p) self.old }
        ensures markers { RangesMatchEdits (HasPoint p) self.old self.new
            (ends_edits_at r (collapsed_at p)) }
    {
        self.write(r, p, p);
    }

    /// Collapses the range to its start or its end.
    pub fn collapse(&mut self, r: RangeId, to_start: bool)
        requires { IsSome (range_in self.old r) }
        ensures set { RangeBecomes r (collapsed to_start) self.old self.new }
        ensures markers { RangesMatchEdits IsAny self.old self.new
            (command_edits (Collapse r to_start)) }
    {
        let (start, end) = self.ends(r);
        if to_start {
            self.write(r, start, start);
        } else {
            self.write(r, end, end);
        }
    }
}
