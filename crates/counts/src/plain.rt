// The marks by the rule as it reads: a final set for each of them.
ghost use Rattle.std.specs.Prelude.{◌≡◌, ◌*◌, ◌≤◌, length};
ghost use Rattle.method.specs.Final.{final};
ghost use Rattle.method.specs.Strike.{held_once, marked};
ghost use Rattle.grid.specs.Limits.{bracket_record};
ghost use Rattle.intervals.specs.Table.{table_of};
ghost use Rattle.intervals.specs.Spans.{spans};
ghost use Rattle.counts.specs.Marks.{once_of, noted_for};

use crate::unmarked::{Unmarked, note_marks};
use grid::lines::{Column, Line};
use intervals::Table;
use intervals::final_set::{Plain, finish_unnoted, note_bracket};

// The leftmost column that lies in exactly one interval.
fn held_once(t: &Table) -> Option<Column>
    ensures { result ≡ once_of (held_once t.now.last.0 (spans t.now)) }
{
    let end = t.last.column_after();
    (0..end.0).find(|c| t.held(Column(*c)) == 1).map(Column)
}

// A set with its final set beside it, which gives way in place, since each is large.
#[derive(Drop)]
struct WithFinal {
    set: Table,
    finished: Table,
}

impl Unmarked for WithFinal {
    ghost set = { λ w. w.set };

    ghost kept = { λ w. (w.finished.rows ≡ table_of (final w.set.last.0 (spans w.set))) × (w.finished.last ≡ w.set.last) };

    fn next_column(&self) -> Option<Column> {
        held_once(&self.finished)
    }

    fn note_mark(&mut self, column: Column, noted: &mut [u8]) {
        // A column that the final set holds is held by the set.
        let Some(i) = self.set.least(Line(0), column) else {
            unreachable!()
        };
        note_bracket(noted, column.0, i);
        self.set.strike(column);
        self.finished = self.set;
        finish_unnoted::<Plain>(&mut self.finished);
    }
}

// The set gives way to its final set, and its marks are noted: at each marked column the interval that it was marked for. Answers how many there are.
// Not inlined, so that its caller has not room for both tables while it does other things.
#[inline(never)]
pub fn final_marks_plain(t: &mut Table, noted: &mut [u8]) -> usize
    requires { t.old.last.0 * bracket_record ≤ length noted.old }
    ensures value { result ≡ length (final t.old.last.0 (spans t.old)) }
    ensures rows { t.new.rows ≡ table_of (final t.old.last.0 (spans t.old)) }
    ensures last { t.new.last ≡ t.old.last }
    ensures noted_after { noted.new ≡ noted_for (marked t.old.last.0 (spans t.old)) noted.old }
{
    let set = *t;
    finish_unnoted::<Plain>(t);
    let mut left = WithFinal { set, finished: *t };
    note_marks(&mut left, noted)
}
