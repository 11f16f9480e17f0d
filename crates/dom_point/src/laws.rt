//! Laws of boundary points. They follow from the definitions alone, and run nothing.

ghost use Rattle.dom_point.specs.Boundary.{HasOneGapEach, StandAsTheirGaps};

/// States a law: each boundary point has exactly one gap in the token text of its root.
pub fn one_gap_each()
    ensures { HasOneGapEach }
{}

/// States a law: two boundary points of one root are ordered as their gaps in that root's token text.
pub fn points_as_gaps()
    ensures { StandAsTheirGaps }
{}
