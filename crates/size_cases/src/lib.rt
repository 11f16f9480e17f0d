//! The tests of large trees, long texts and long lines, given by their repeated pieces.
#![tactic(auto)]

#[cfg(test)]
mod large;
#[cfg(test)]
mod long;
#[cfg(test)]
mod written;
