// The replay protocol's text: words, numbers and bytes of a line, the command that it is, and what an answer is made of. No call is
// made here, and nothing is read or written but what is lent.
#![tactic(auto)]

pub mod bytes;
pub mod command;
pub mod say;
pub mod show;
pub mod text;
