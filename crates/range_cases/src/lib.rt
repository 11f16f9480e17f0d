//! The tests of live and static ranges, by their public calls: what takes no memory, and room that is refused.
#![tactic(auto)]

#[cfg(test)]
mod adjustment;
#[cfg(test)]
mod ranges;
#[cfg(test)]
mod statics;
#[cfg(test)]
mod trees;
