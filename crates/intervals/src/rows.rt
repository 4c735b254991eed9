// One interval of a table, one row of it, and the table as a whole.
ghost use Rattle.std.specs.Prelude.{◌≡◌, cond, ◌&&◌, [], ◌+◌, ◌<◌, leb, eqb, length, min};
ghost use Rattle.method.specs.Intervals.{proper, member};
ghost use Rattle.grid.specs.Limits.{side};
ghost use Rattle.grid.specs.Lines.{line, span_of};
ghost use Rattle.words.specs.Words.{bits, on, Bits};
ghost use Rattle.intervals.specs.Table.{row_of, table_of, changed, with, without, next_end, line_found, begun_from, ended_twice, cut_at};
ghost use Rattle.intervals.specs.Spans.{spans};
ghost use Rattle.intervals.specs.Tops.{ends_beyond};

use crate::Table;
use grid::limits::SIDE;
use grid::lines::{Interval, Line};
use words::BITS;

// The word with the bit on, or off, as asked.
fn changed(w: u64, k: usize, present: bool) -> u64
    requires { k < bits }
    ensures { Bits result (λ j. cond (eqb j k) present (on w j)) }
{
    if present {
        words::with(w, k)
    } else {
        words::without(w, k)
    }
}

impl Table {
    // The table of no interval. Lines beyond the largest grid are none of its lines.
    pub fn empty(last: Line) -> Table
        ensures rows { result.rows ≡ table_of [] }
        ensures last { result.last ≡ line (min last.0 side) }
    {
        let last = Line(last.0.min(SIDE));
        Table {
            rows: [0u64; SIDE],
            last,
        }
    }

    // It is an interval over the table's lines.
    pub(crate) fn within(&self, i: Interval) -> bool
        ensures { result ≡ (proper (span_of i) && leb i.right.0 self.now.last.0) }
    {
        Interval::up_to(self.last).contains(i)
    }

    // The interval is in the set.
    pub fn has(&self, i: Interval) -> bool
        ensures { result ≡ member (span_of i) (spans self.now) }
    {
        self.within(i) && words::is_on(self.rows[i.left.0], i.right.0 - 1)
    }

    // Puts the interval into the set, or takes it out; what is no interval over the table's lines changes nothing.
    fn change(&mut self, i: Interval, present: bool)
        ensures rows { self.new.rows ≡ table_of (changed self.old.last.0 (span_of i) present (spans self.old)) }
        ensures last { self.new.last ≡ self.old.last }
    {
        if self.within(i) {
            let l = i.left.0;
            self.rows[l] = changed(self.rows[l], i.right.0 - 1, present);
        }
    }

    pub fn put(&mut self, i: Interval)
        ensures rows { self.new.rows ≡ table_of (with self.old.last.0 (span_of i) (spans self.old)) }
        ensures last { self.new.last ≡ self.old.last }
    {
        self.change(i, true);
    }

    pub fn take(&mut self, i: Interval)
        ensures rows { self.new.rows ≡ table_of (without self.old.last.0 (span_of i) (spans self.old)) }
        ensures last { self.new.last ≡ self.old.last }
    {
        self.change(i, false);
    }

    // The word of the intervals from `left`: bit r - 1 is on where one ends at line r.
    pub fn row(&self, left: Line) -> u64
        ensures { result ≡ row_of (spans self.now) left.0 }
    {
        if left < self.last {
            self.rows[left.0]
        } else {
            0
        }
    }

    // The least line beyond `from` at which an interval from `left` ends.
    pub fn next_end(&self, left: Line, from: Line) -> Option<Line>
        ensures { result ≡ line_found (next_end self.now.last.0 (spans self.now) left.0 from.0) }
    {
        let k = words::next_on(self.row(left), from.0);
        if k < BITS { Some(Line(k + 1)) } else { None }
    }

    // The first line from `from` on at which an interval begins; the last line where there is none.
    pub fn begun_from(&self, from: Line) -> Line
        ensures { result ≡ line (begun_from self.now.last.0 (spans self.now) from.0) }
    {
        (from.0..self.last.0)
            .find(|l| self.row(Line(*l)) != 0)
            .map_or(self.last, Line)
    }

    // Takes out the intervals from `left` that end beyond `end`.
    pub fn cut(&mut self, left: Line, end: Line)
        ensures rows { self.new.rows ≡ table_of (cut_at self.old.last.0 left.0 end.0 (spans self.old)) }
        ensures last { self.new.last ≡ self.old.last }
    {
        if left < self.last && end < self.last {
            let l = left.0;
            self.rows[l] = words::below(self.rows[l], end.0);
        }
    }

    // How many intervals from `left` end beyond `from`.
    pub fn ends_beyond(&self, left: Line, from: Line) -> usize
        ensures { result ≡ ends_beyond (spans self.now) left.0 self.now.last.0 from.0 }
    {
        let mut n: usize = 0;
        let mut end = from;
        while let Some(next) = self.next_end(left, end) {
            n += 1;
            end = next;
        }
        n
    }

    // How many intervals the set has: from each line those that end beyond it.
    pub fn size(&self) -> usize
        ensures { result ≡ length (spans self.now) }
    {
        let mut n: usize = 0;
        for l in 0..self.last.0 {
            n += self.ends_beyond(Line(l), Line(l));
        }
        n
    }

    // The lines at which two intervals end or more, as bits: bit r - 1 for line r.
    pub fn doubled(&self) -> u64
        ensures { Bits result (λ k. ended_twice self.now.last.0 (spans self.now) (k + 1)) }
    {
        let mut once: u64 = 0;
        let mut twice: u64 = 0;
        for row in &self.rows[..self.last.0] {
            twice = words::either(twice, words::both(once, *row));
            once = words::either(once, *row);
        }
        twice
    }
}
