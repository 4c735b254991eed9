// Each column's bottom and end, by one pass over the raster that does its checks on the way; and what is taken from them: the copper number, and the rows
// that are copper in each of several columns.
#![tactic(auto)]

pub mod checks;
pub mod copper;
pub mod reach;
