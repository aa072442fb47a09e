// No code: what the demands speak of, and that it holds in every world that calls reach.
#![tactic(auto)]
