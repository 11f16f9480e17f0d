//! The tests of observers: options, registrations and records.
#![tactic(auto)]

#[cfg(test)]
mod out_of_memory;
#[cfg(test)]
mod registrations;
#[cfg(test)]
mod scenes;
