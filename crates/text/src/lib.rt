// Leaves over a text and a spot: what stands there is read, or written into a lent room; and a line, which is a word and its numbers.
#![tactic(auto)]

pub mod glyphs;
pub mod line;
pub mod read;
pub mod signed;
pub mod write;
