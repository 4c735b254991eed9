// Counts by line of a set and of the bag of its brackets: what rises and what falls there gives every column's count in one pass.
// In the set an interval rises where it begins and falls where it ends; in the bag it is the other way round.
ghost use Rattle.std.specs.Prelude.{◌≡◌, Bool, true, false, [], ◌∷◌, ◌+◌, ◌-◌, ◌^◌, ◌≤◌, ◌<◌, eqb};
ghost use Rattle.lists.specs.Lists.{keep, first, from};
ghost use Rattle.method.specs.Intervals.{holds};
ghost use Rattle.method.specs.Strike.{strike};
ghost use Rattle.grid.specs.Lines.{span_of};
ghost use Rattle.intervals.specs.Table.{table_of};
ghost use Rattle.intervals.specs.Spans.{spans};
ghost use Rattle.counts.specs.Marks.{once_of};
ghost use Rattle.counts.specs.Rows.{row_beyond, Holding};
ghost use Rattle.counts.specs.Tally.{Fits, Tallied, CanChange, Changed, Steps, held_to, is_held_in};

use grid::limits::LINES;
use grid::lines::{Column, Interval, Line};
use intervals::Table;

// Intervals come into the counts, or go from them: each count changes by one.
pub trait Direction {
    ghost more: { Bool };

    fn step(count: u16) -> u16
        requires { Fits more count 1 }
        ensures { Tallied more count 1 result };
}

pub struct Comes;

pub struct Goes;

impl Direction for Comes {
    ghost more = { true };

    fn step(count: u16) -> u16 {
        count + 1
    }
}

impl Direction for Goes {
    ghost more = { false };

    fn step(count: u16) -> u16 {
        count - 1
    }
}

// The line where the interval begins is counted in the one, and where it ends in the other.
fn count_lines<D: Direction>(begins: &mut [u16; LINES], ends: &mut [u16; LINES], i: Interval)
    requires { CanChange D.more begins.old ends.old (span_of i ∷ []) }
    ensures { Changed D.more begins.old ends.old (span_of i ∷ []) begins.new ends.new }
{
    let begin = &mut begins[i.left.0];
    *begin = D::step(*begin);
    let end = &mut ends[i.right.0];
    *end = D::step(*end);
}

#[derive(Clone, Copy)]
pub struct Tally {
    pub rises: [u16; LINES],
    pub falls: [u16; LINES],
}

impl Tally {
    // An interval of the set.
    pub fn count<D: Direction>(&mut self, i: Interval)
        requires { CanChange D.more self.old.rises self.old.falls (span_of i ∷ []) }
        ensures { Changed D.more self.old.rises self.old.falls (span_of i ∷ []) self.new.rises self.new.falls }
    {
        count_lines::<D>(&mut self.rises, &mut self.falls, i);
    }

    // An interval of the bag.
    pub fn count_bracket<D: Direction>(&mut self, i: Interval)
        requires { CanChange D.more self.old.falls self.old.rises (span_of i ∷ []) }
        ensures { Changed D.more self.old.falls self.old.rises (span_of i ∷ []) self.new.falls self.new.rises }
    {
        count_lines::<D>(&mut self.falls, &mut self.rises, i);
    }

    // The intervals of a set that begin at one line and end beyond another.
    pub fn count_row<D: Direction>(&mut self, set: &Table, left: Line, edge: Line)
        requires { CanChange D.more self.old.rises self.old.falls (row_beyond set.now.last.0 (spans set.now) left.0 edge.0) }
        ensures { Changed D.more self.old.rises self.old.falls (row_beyond set.now.last.0 (spans set.now) left.0 edge.0) self.new.rises self.new.falls }
    {
        let mut edge = edge;
        while let Some(right) = set.next_end(left, edge) {
            self.count::<D>(Interval { left, right });
            edge = right;
        }
    }

    // A whole set comes into the counts.
    pub fn enter_set(&mut self, set: &Table)
        requires { CanChange true self.old.rises self.old.falls (spans set.now) }
        ensures { Changed true self.old.rises self.old.falls (spans set.now) self.new.rises self.new.falls }
    {
        for l in 0..set.last.0 {
            self.count_row::<Comes>(set, Line(l), Line(l));
        }
    }

    // Strikes every interval that holds the column from the set and from the counts. None begins before `first`.
    pub fn strike_set(&mut self, set: &mut Table, first: Line, column: Column)
        requires holding { Holding set.old.last.0 (spans set.old) first.0 column.0 }
        requires can_change { CanChange false self.old.rises self.old.falls (keep (holds column.0) (spans set.old)) }
        ensures rows { set.new.rows ≡ table_of (strike column.0 (spans set.old)) }
        ensures last { set.new.last ≡ set.old.last }
        ensures changed { Changed false self.old.rises self.old.falls (keep (holds column.0) (spans set.old)) self.new.rises self.new.falls }
    {
        let edge = column.left_line();
        for l in first.0..edge.0 + 1 {
            self.count_row::<Goes>(set, Line(l), edge);
            set.cut(Line(l), edge);
        }
    }

    // The leftmost column from line `start` on that is held once, with what is held before it.
    pub fn held_once(&self, last: Line, start: Line, before: u16) -> Option<Column>
        requires steps { Steps last.0 self.now.rises self.now.falls }
        requires before_value { before ≡ held_to self.now.rises self.now.falls start.0 }
        ensures { result ≡ once_of (first (λ x. eqb (is_held_in self.now.rises self.now.falls x) 1) (from start.0 (last.0 - start.0))) }
    {
        let first = start.column_after();
        let end = last.column_after();
        let mut held = before;
        for c in first.0..end.0 {
            held = held + self.rises[c] - self.falls[c];
            if held == 1 {
                return Some(Column(c));
            }
        }
        None
    }

    // What is held before a line, counted back from a column that is not held.
    pub fn held_before(&self, column: Column, line: Line) -> u16
        requires steps { Steps (column.0 + 1) self.now.rises self.now.falls }
        requires column_value { (is_held_in self.now.rises self.now.falls column.0 ≡ 0) × (line.0 ≤ column.0) × (column.0 + 1 < 2 ^ 64) }
        ensures { result ≡ held_to self.now.rises self.now.falls line.0 }
    {
        let mut held: u16 = 0;
        for x in (line.0..column.0 + 1).rev() {
            held = held + self.falls[x] - self.rises[x];
        }
        held
    }
}
