// Marks from counts: a column's count in a final set is its count in the set less that in the bag of brackets that were reduced,
// and striking a column strikes both. The counts stand by line: what rises and what falls there gives every column's in one pass.
ghost use Rattle.std.specs.Prelude.{◌≡◌, ◌*◌, ◌≤◌, length};
ghost use Rattle.method.specs.Final.{final};
ghost use Rattle.method.specs.Strike.{marked};
ghost use Rattle.grid.specs.Limits.{bracket_record, slice_limit};
ghost use Rattle.intervals.specs.Table.{table_of};
ghost use Rattle.intervals.specs.Spans.{spans};
ghost use Rattle.counts.specs.Kept.{Kept};
ghost use Rattle.counts.specs.Marks.{noted_for};

use crate::bag::Bag;
use crate::tally::Tally;
use crate::unmarked::{Unmarked, note_marks};
use grid::limits::{BAG_ROOM, LINES};
use grid::lines::{Column, Line};
use intervals::Table;
use intervals::final_set::note_bracket;
use intervals::sweep::final_set_swept;

// A set and the bag of its brackets, with the counts of both; made in place, since each is large.
#[derive(Drop)]
struct Counted {
    set: Table,
    bag: Bag,
    tally: Tally,
    // No interval of the set begins before it.
    first: Line,
    // The next column is looked for from here on, with what is held before it.
    start: Line,
    held: u16,
}

impl Unmarked for Counted {
    ghost set = { λ c. c.set };

    ghost kept = { Kept };

    fn next_column(&self) -> Option<Column> {
        self.tally.held_once(self.set.last, self.start, self.held)
    }

    fn note_mark(&mut self, column: Column, noted: &mut [u8]) {
        // Marks go from the left, so the rows there are empty first, and stay so.
        let first = self.set.begun_from(self.first);
        // A column that the final set holds is held by the set.
        let Some(i) = self.set.least(first, column) else {
            unreachable!()
        };
        note_bracket(noted, column.0, i);
        self.tally.strike_set(&mut self.set, i.left, column);
        // Before the first line that was struck nothing has changed, and no column there was held once.
        let start = self.bag.strike(column, i.left, &mut self.tally);
        self.held = self.tally.held_before(column, start);
        self.start = start;
        self.first = first;
    }
}

// The set gives way to its final set, and its marks are noted: at each marked column the interval that it was marked for. Answers how many there are.
// Not inlined, so that its caller has not room for all of this while it does other things.
#[inline(never)]
pub fn final_marks_counted(t: &mut Table, noted: &mut [u8]) -> usize
    requires { (t.old.last.0 * bracket_record ≤ length noted.old) × (length (spans t.old) ≤ slice_limit) }
    ensures value { result ≡ length (final t.old.last.0 (spans t.old)) }
    ensures rows { t.new.rows ≡ table_of (final t.old.last.0 (spans t.old)) }
    ensures last { t.new.last ≡ t.old.last }
    ensures noted_after { noted.new ≡ noted_for (marked t.old.last.0 (spans t.old)) noted.old }
{
    let mut left = Counted {
        set: *t,
        bag: Bag {
            records: [0; BAG_ROOM],
            count: 0,
        },
        tally: Tally {
            rises: [0; LINES],
            falls: [0; LINES],
        },
        first: Line(0),
        start: Line(0),
        held: 0,
    };
    left.bag.count = final_set_swept(t, &mut left.bag.records);
    left.tally.enter_set(&left.set);
    left.bag.enter(&mut left.tally);
    note_marks(&mut left, noted)
}
