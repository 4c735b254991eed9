// A job's text, both ways: reading judges every line before a byte is written, writing gives the one text of a job.
#![tactic(auto)]

pub mod lines;
pub mod read;
pub mod reader;
pub mod room;
pub mod write;
