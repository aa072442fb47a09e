// The answer to each command of a script: the call that it makes, on the world that goes from line to line, and the answer's text.
#![tactic(auto)]

pub mod answer;
mod call;
pub mod world;
