//! The contents of live ranges: their text, and how they are deleted, extracted and copied (DOM Standard, "Interface Range").
#![tactic(auto)]

mod child_slices;
mod contained;
mod content_pieces;
mod deletion;
mod end_paths;
mod extraction;
mod partially_contained;
mod range_parts;
mod same_data;
mod stringification;

pub use deletion::delete_contents;
pub use extraction::{clone_contents, extract, extract_checked};
pub use stringification::range_text;
