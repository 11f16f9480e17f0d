//! The tests of edits, data, attributes, copies and contents in a small world, with refused allocations.
#![tactic(auto)]

#[cfg(test)]
mod attributes;
#[cfg(test)]
mod clones;
#[cfg(test)]
mod contents;
#[cfg(test)]
mod facts;
#[cfg(test)]
mod in_scene;
#[cfg(test)]
mod range_insertion;
#[cfg(test)]
mod scenes;
#[cfg(test)]
mod sizes;
#[cfg(test)]
mod small_world;
#[cfg(test)]
mod texts;
#[cfg(test)]
mod tree_edits;
