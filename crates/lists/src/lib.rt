// No code: what the definitions of the crates above say about lists, once.
#![tactic(auto)]
