// No code: each call, seen as pages and their owners, makes moves that keep the invariant.
#![tactic(auto)]
