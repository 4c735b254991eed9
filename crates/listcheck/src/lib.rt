// A check of flash lists from outside: sound, or the first bad flash by line, or the first bare square.
#![tactic(auto)]

pub mod bare;
pub mod entry;
pub mod flash;
pub mod lines;
