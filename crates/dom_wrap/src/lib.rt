//! Inserting into a live range, and surrounding it (DOM Standard, "Interface Range", insertNode, surroundContents).
#![tactic(auto)]

mod insert_into_range;
pub mod laws;
mod surround_check;
mod surround_contents;

pub use insert_into_range::insert_node;
pub use surround_check::can_surround;
pub use surround_contents::surround;
