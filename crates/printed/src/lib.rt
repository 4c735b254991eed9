// An outcome as lines of text.
#![tactic(auto)]

pub mod outcome;
