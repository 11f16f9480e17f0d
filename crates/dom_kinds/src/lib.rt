//! Node kinds and labels, valid names, and the exceptions of the standard.
#![tactic(auto)]

pub mod error;
pub mod kind;
pub mod label;
mod label_texts;
pub mod names;

pub use dom_model::{DomError, Kind};
pub use error::Exception;
pub use kind::{NodeType, is_character_data, may_be_parent};
pub use label::Label;
pub use names::{is_attribute_name, is_doctype_name, is_element_name};
