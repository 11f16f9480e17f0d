//! The tests of the crates below the tree, by their public calls: what memory texts, kinds, attributes, linked slots, pages and numbers take. They are in a
//! crate of their own, because a crate with tests is proved twice.
#![tactic(auto)]

#[cfg(test)]
mod attributes;
#[cfg(test)]
mod chains;
#[cfg(test)]
mod items;
#[cfg(test)]
mod kinds;
#[cfg(test)]
mod links;
#[cfg(test)]
mod numbered_items;
#[cfg(test)]
mod pages;
#[cfg(test)]
mod player;
#[cfg(test)]
mod units;
