//! Numbers of live ranges.

ghost use Rattle.std.specs.Prelude.{◌≡◌};

use dom_ids::Id;

/// The kind of a [`RangeId`].
#[derive(Clone, Copy, Debug, PartialEq, Eq, Hash, Drop)]
pub struct OfRange;

/// The number of a live range. The first is 0, and no number is reused.
pub type RangeId = Id<OfRange>;
