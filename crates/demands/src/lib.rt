// No code: the demands, stated.
#![tactic(auto)]
