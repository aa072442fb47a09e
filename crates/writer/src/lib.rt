// Rust's FileWriter, one at a time, in the state: open, write, record_end, finish (Rust's commit) and discard.
#![tactic(auto)]

pub mod ask;
pub mod finish;
pub mod open;
mod staging;
pub mod write;
