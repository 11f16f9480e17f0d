//! The tests of token texts: drawn from the replies before and after an edit, and edited as texts alone.
#![tactic(auto)]

#[cfg(test)]
mod drawn_text;
#[cfg(test)]
mod edited;
#[cfg(test)]
mod edits;
#[cfg(test)]
mod replies;
#[cfg(test)]
mod tokens;
