// The ground floor: columns, rows and grid lines, the interval between two lines, the limits, the answers, lent rooms, and the checks of a raster.
#![tactic(auto)]

pub mod answers;
pub mod limits;
pub mod lines;
pub mod raster;
pub mod rooms;
