//! The tests of streams over those of std: what reaches them, and the errors that they leave.
#![tactic(auto)]

#[cfg(test)]
mod streams;
