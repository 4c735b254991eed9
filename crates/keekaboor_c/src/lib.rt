// The functions that C calls, as include/keekaboor.h declares them: each calls its namesake of the crates below, with the very clauses of that one.
#![tactic(auto)]

pub mod covers;
pub mod gerbers;
pub mod jobs;
pub mod lists_checked;
