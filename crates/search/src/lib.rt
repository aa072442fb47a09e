// Search for a record's start.
#![tactic(auto)]

mod hunt;
pub mod search;

// A position on offer, or the result at a false answer.
#[derive(Clone, Copy, Debug, PartialEq, Eq)]
pub enum Answer {
    Offer(u32),
    End(u32),
}
