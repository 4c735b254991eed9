// A set's final set and its marks together, by the rule as it reads or from counts: the two ways have one contract.
#![tactic(auto)]

ghost use Rattle.std.specs.Prelude.{◌≡◌, ◌*◌, ◌≤◌, length};
ghost use Rattle.method.specs.Final.{final};
ghost use Rattle.method.specs.Strike.{marked};
ghost use Rattle.grid.specs.Limits.{bracket_record, slice_limit};
ghost use Rattle.intervals.specs.Table.{table_of};
ghost use Rattle.intervals.specs.Spans.{spans};
ghost use Rattle.counts.specs.Marks.{noted_for};

mod bag;
pub mod marks;
pub mod plain;
pub mod spans;
mod tally;
mod unmarked;

use grid::limits::{BRACKET_RECORD, SIDE};
use intervals::Table;
use intervals::final_set::{Plain, Search, Swept};

// A record for each column.
pub const NOTES: usize = SIDE * BRACKET_RECORD;

// A search with its way to the marks: nothing tells which it was.
pub trait Marking: Search {
    fn final_marks(t: &mut Table, noted: &mut [u8]) -> usize
        requires { (t.old.last.0 * bracket_record ≤ length noted.old) × (length (spans t.old) ≤ slice_limit) }
        ensures value { result ≡ length (final t.old.last.0 (spans t.old)) }
        ensures rows { t.new.rows ≡ table_of (final t.old.last.0 (spans t.old)) }
        ensures last { t.new.last ≡ t.old.last }
        ensures noted_after { noted.new ≡ noted_for (marked t.old.last.0 (spans t.old)) noted.old };
}

impl Marking for Plain {
    fn final_marks(t: &mut Table, noted: &mut [u8]) -> usize {
        plain::final_marks_plain(t, noted)
    }
}

impl Marking for Swept {
    fn final_marks(t: &mut Table, noted: &mut [u8]) -> usize {
        marks::final_marks_counted(t, noted)
    }
}

// The set gives way to its final set, and its marks are noted, by the search that the caller chooses. Answers how many there are.
pub fn final_marks<S: Marking>(t: &mut Table, noted: &mut [u8]) -> usize
    requires { (t.old.last.0 * bracket_record ≤ length noted.old) × (length (spans t.old) ≤ slice_limit) }
    ensures value { result ≡ length (final t.old.last.0 (spans t.old)) }
    ensures rows { t.new.rows ≡ table_of (final t.old.last.0 (spans t.old)) }
    ensures last { t.new.last ≡ t.old.last }
    ensures noted_after { noted.new ≡ noted_for (marked t.old.last.0 (spans t.old)) noted.old }
{
    S::final_marks(t, noted)
}
