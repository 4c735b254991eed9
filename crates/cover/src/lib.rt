// The cover: a copper area's fewest flashes, and as many marks that show that there are no fewer.
#![tactic(auto)]

pub mod entry;
pub mod flashes;
pub mod marks;
pub mod sheet;
pub mod slices;
