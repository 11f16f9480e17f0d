//! Laws of live range ends: each map that adjusts them, and each call that sets them, moves an end as the edit of the token text moves its marker.
//! They follow from the definitions alone, and run nothing.

ghost use Rattle.dom_ranges.specs.Markers.{MoveWhereNodesComeIn, MoveWhereSeveralNodesComeIn, MoveWhereANodeLeaves, MoveWhereUnitsAreReplaced, MoveWhereATextIsSplit, MoveWhereTextsAreJoined, MoveWhereEndsAreSet};

/// States a law: `after_gap` for one inserted root moves each end of a live range as the insertion of the root's tokens behind the gap's markers
/// moves its marker (DOM Standard, "Live ranges", "Mutation algorithms").
pub fn ends_move_as_markers_where_nodes_come_in()
    ensures { MoveWhereNodesComeIn }
{}

/// States a law: `after_gap` for several roots, inserted one after another, moves each end of a live range as these edits move its marker. One call
/// of [`Ranges::gap`] ahead of the insertions does so (DOM Standard, "Mutation algorithms").
///
/// [`Ranges::gap`]: crate::Ranges::gap
pub fn ends_move_as_markers_where_several_nodes_come_in()
    ensures { MoveWhereSeveralNodesComeIn }
{}

/// States a law: `after_removal` moves each end of a live range as the removal of a node's tokens moves its marker (DOM Standard, "Live ranges").
pub fn ends_move_as_markers_where_a_node_leaves()
    ensures { MoveWhereANodeLeaves }
{}

/// States a law: `after_splice` moves each end of a live range as the change of the unit tokens moves its marker (DOM Standard, "Live ranges",
/// "Interface CharacterData").
pub fn ends_move_as_markers_where_units_are_replaced()
    ensures { MoveWhereUnitsAreReplaced }
{}

/// States a law: `after_split` moves each end of a live range as the new close and open in the text's tokens move its marker. The edit is the split
/// as a whole: `after_gap` precedes it for the new Text, `after_splice` follows for the units that the old one loses (DOM Standard, "Interface
/// Text").
pub fn ends_move_as_markers_where_a_text_is_split()
    ensures { MoveWhereATextIsSplit }
{}

/// States a law: `after_merge` moves each end of a live range as the removed close and open between two Texts move its marker. The edit is the merge
/// as a whole: `after_splice` precedes it for the units, `after_removal` follows for the removed Text (DOM Standard, "Interface Node": normalize).
pub fn ends_move_as_markers_where_texts_are_joined()
    ensures { MoveWhereTextsAreJoined }
{}

/// States a law: if a live range is set, the marker of each moved end goes to the gap of its new point, and all others stay. It covers
/// [`Ranges::set_start`], [`Ranges::set_end`], [`Ranges::select`], [`Ranges::select_contents`] and [`Ranges::collapse`] (DOM Standard, "Interface
/// Range").
///
/// [`Ranges::set_start`]: crate::Ranges::set_start
/// [`Ranges::set_end`]: crate::Ranges::set_end
/// [`Ranges::select`]: crate::Ranges::select
/// [`Ranges::select_contents`]: crate::Ranges::select_contents
/// [`Ranges::collapse`]: crate::Ranges::collapse
pub fn ends_move_as_markers_where_they_are_set()
    ensures { MoveWhereEndsAreSet }
{}
