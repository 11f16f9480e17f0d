//! Laws of inserting into a live range and surrounding it: of the edits of the token texts, and of the checks. They follow from the definitions
//! alone, and run nothing.

ghost use Rattle.std.specs.Prelude.{◌≡◌, ℕ, Bool, false, List, None, option_map};
ghost use Rattle.dom_model.specs.Forests.Forest.{HasNode, IsForest};
ghost use Rattle.dom_model.specs.Worlds.World.{Point, World};
ghost use Rattle.dom_model.specs.MutationAlgorithms.Checks.{check_insert};
ghost use Rattle.dom_model.specs.MutationAlgorithms.Editing.{remove, reference_child};
ghost use Rattle.dom_model.specs.RangesAndContents.Ranges.{end_of, range_at};
ghost use Rattle.dom_model.specs.RangesAndContents.Wrapping.{reference_at, parent_at, check_start, split_at, reference_after, inserted_at, refusal_in};
ghost use Rattle.dom_model.specs.TokenText.Tokens.{Edit, texts_of, gap_among, marked_ranges, all_on_texts};
ghost use Rattle.dom_model.specs.TokenText.Edits.{all_on_world};
ghost use Rattle.dom_model.specs.TokenText.Fitting.{Childless, IsReady, AllFit};

/// States a law: over any list of primitive edits, each end of each live range is where its marker is. No node with data has children in the first
/// world, and each edit fits the world that those before it left. Afterwards a marker is in the gap of its end, and a range that was released or
/// never made has no marker (ours; DOM Standard, "Live ranges").
pub fn ends_stand_where_edits_put_their_markers()
    ensures gaps { (w : World) → (edits : List Edit) → Childless w.forest → AllFit w edits →
        IsReady (all_on_world edits w) → (r : ℕ) → (side : Bool) →
        gap_among r side (all_on_texts edits (texts_of w))
        ≡ option_map (end_of side) (range_at (all_on_world edits w) r) }
    ensures ranges { (w : World) → (edits : List Edit) → Childless w.forest → AllFit w edits →
        IsReady (all_on_world edits w) →
        marked_ranges 0 (all_on_world edits w).ranges (all_on_texts edits (texts_of w))
        ≡ (all_on_world edits w).ranges }
{}

/// States a law: an insertion whose first two checks pass is not refused later. If the point may take the node, and the node may be inserted there,
/// the check of the insertion that follows passes too, in the world that the split of the Text and the removal of the node leave (DOM Standard,
/// "Interface Range": insert a node into a live range).
pub fn checked_insertions_are_not_refused()
    ensures check { (w : World) → IsForest (record { forest = w.forest; made = w.made }) → (n : ℕ) →
        HasNode w.forest n → (p : Point) →
        check_start w p n ≡ None → check_insert w.forest (parent_at w p) n (reference_at w p)
        ≡ None →
        check_insert (remove false n (split_at p w)).forest (parent_at w p) n
        (reference_child (split_at p w) n (reference_after w p)) ≡ None }
    ensures steps { (w : World) → IsForest (record { forest = w.forest; made = w.made }) → (n : ℕ) →
        HasNode w.forest n → (p : Point) →
        check_start w p n ≡ None → check_insert w.forest (parent_at w p) n (reference_at w p)
        ≡ None →
        (r : ℕ) → refusal_in (inserted_at r n p w) ≡ None }
{}
