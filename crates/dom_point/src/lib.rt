//! Boundary points: their order, and the common ancestor of two nodes (DOM Standard, "Ranges").
#![tactic(auto)]

mod ancestors;
mod laws;
mod point;
mod point_order;
mod queries;

pub use ancestors::common;
pub use laws::{one_gap_each, points_as_gaps};
pub use point::Point;
pub use point_order::{found_order, order};
pub use queries::{
    checked_point, found_around, found_before, is_before, point_after, point_before, points_around,
    same_root,
};
