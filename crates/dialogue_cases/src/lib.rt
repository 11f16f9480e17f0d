//! The tests of dialogues from bytes to bytes: whole, cut anywhere, with failing reads, writes and flushes, and with refused allocations.
#![tactic(auto)]

#[cfg(test)]
mod bad_input;
#[cfg(test)]
mod cuts;
#[cfg(test)]
mod faults;
#[cfg(test)]
mod lines_and_limits;
#[cfg(test)]
mod memory;
#[cfg(test)]
mod observers;
#[cfg(test)]
mod ranges;
#[cfg(test)]
mod refusals;
#[cfg(test)]
mod traversal;
#[cfg(test)]
mod trees_and_data;
