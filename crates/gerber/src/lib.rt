// Gerber files for the film house: a cover written as one, and one read back.
#![tactic(auto)]

pub mod apertures;
pub mod centres;
pub mod flashes;
pub mod found;
pub mod lines;
pub mod read;
pub mod sizes;
pub mod turns;
pub mod versions;
pub mod write;
