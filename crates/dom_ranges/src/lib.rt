//! Live and static ranges (DOM Standard, "Ranges").
#![tactic(auto)]

mod end_counts;
pub mod laws;
mod live_range_adjustment;
mod live_ranges;
mod range_ends;
mod range_id;
mod set_ends;
mod shift;
mod static_ranges;

pub use live_ranges::Ranges;
pub use range_id::{OfRange, RangeId};
pub use static_ranges::{OfStatic, StaticId, Statics};
