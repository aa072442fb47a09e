// The values of document 01: file records and their table, the state with its writer and search, refusals, and the checks that
// every call shares.
#![tactic(auto)]

pub mod checks;
pub mod flags;
pub mod types;
pub mod values;
