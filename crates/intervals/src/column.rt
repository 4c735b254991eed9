// A column of a table: how many intervals hold it, the least that does, and the table without them.
// An interval from a line up to the column's left line holds the column where it ends beyond that line.
ghost use Rattle.std.specs.Prelude.{◌≡◌};
ghost use Rattle.lists.specs.Lists.{count};
ghost use Rattle.method.specs.Intervals.{holds};
ghost use Rattle.method.specs.Strike.{least, strike};
ghost use Rattle.grid.specs.Lines.{line};
ghost use Rattle.intervals.specs.Table.{table_of, NoneBegins, found_of};
ghost use Rattle.intervals.specs.Spans.{spans};
ghost use Rattle.intervals.specs.Counts.{begun_before};

use crate::Table;
use grid::lines::{Column, Interval, Line};

impl Table {
    // The intervals that hold the column begin before this line; line 0 where there is none.
    fn begun_before(&self, column: Column) -> Line
        ensures { result ≡ line (begun_before self.now.last.0 column.0) }
    {
        if column.left_line() < self.last {
            column.right_line()
        } else {
            Line(0)
        }
    }

    // How many intervals hold the column.
    pub fn held(&self, column: Column) -> usize
        ensures { result ≡ count (holds column.0) (spans self.now) }
    {
        let edge = column.left_line();
        let end = self.begun_before(column);
        let mut n: usize = 0;
        for l in 0..end.0 {
            n += self.ends_beyond(Line(l), edge);
        }
        n
    }

    // The least left line, and from it the least right line. No interval begins before line `from`.
    pub fn least(&self, from: Line, column: Column) -> Option<Interval>
        requires none_begins { NoneBegins (spans self.now) from.0 }
        ensures { result ≡ found_of (least column.0 (spans self.now)) }
    {
        let edge = column.left_line();
        let end = self.begun_before(column);
        for l in from.0..end.0 {
            let left = Line(l);
            if let Some(right) = self.next_end(left, edge) {
                return Some(Interval { left, right });
            }
        }
        None
    }

    // Strikes every interval that holds the column.
    pub fn strike(&mut self, column: Column)
        ensures rows { self.new.rows ≡ table_of (strike column.0 (spans self.old)) }
        ensures last { self.new.last ≡ self.old.last }
    {
        let edge = column.left_line();
        let end = self.begun_before(column);
        for l in 0..end.0 {
            self.cut(Line(l), edge);
        }
    }
}
