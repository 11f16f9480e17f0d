//! The tests of trees and traversal, by their public calls: drops, cached indices, and what takes no memory.
#![tactic(auto)]

#[cfg(test)]
mod counted;
#[cfg(test)]
mod player;
#[cfg(test)]
mod tree;
#[cfg(test)]
mod walkers;
