// No code: all calls as one step, and the worlds that they reach.
#![tactic(auto)]
