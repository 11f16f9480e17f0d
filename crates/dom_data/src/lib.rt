//! Character data, Text, text content and attributes of a world's nodes (DOM Standard, "Interface CharacterData", "Interface Text",
//! "Interface Node", "Interface Element").
#![tactic(auto)]

mod attributes;
mod bodies;
mod character_data;
mod new_text;
mod normalization;
mod records;
mod split_text;
mod text_contents;

pub use attributes::{remove_attribute, set_attribute, toggle_attribute};
pub use bodies::reserve_data;
pub use character_data::{replace_data, replace_data_checked, set_data, substring};
pub use normalization::normalize;
pub use split_text::{split, split_checked};
pub use text_contents::{set_text_content, text_content};
