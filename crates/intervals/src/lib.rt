// The interval table, and the method over it: dependent, the bracket search, reduce, final.
#![tactic(auto)]

ghost use Rattle.intervals.specs.Table.{Tabled};

pub mod bracket;
pub mod column;
pub mod dependent;
pub mod final_set;
pub mod reduce;
pub mod rows;
pub mod sweep;

use grid::limits::SIDE;
use grid::lines::Line;

// A set over the lines 0 to last, a word for each left line: bit r - 1 is on where the interval from that line to line r is in the set.
#[derive(Clone, Copy)]
pub struct Table {
    pub rows: [u64; SIDE],
    pub last: Line,
    pub ghost tabled: { Tabled last.0 rows },
}
