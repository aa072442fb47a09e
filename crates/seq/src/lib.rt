// Leaves 1 to 3 of document 01: page ids, sequence numbers with the skip list's arithmetic, and the seed.
#![tactic(auto)]

pub mod ids;
pub mod numbers;
pub mod seed;
