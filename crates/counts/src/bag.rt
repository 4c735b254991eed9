// The brackets that a final set reduced, with a record for each: struck like the set, they are counted beside it.
ghost use Rattle.std.specs.Prelude.{◌≡◌, true, false, ◌+◌, ◌*◌, ◌≤◌, ◌<◌, length};
ghost use Rattle.lists.specs.Lists.{keep};
ghost use Rattle.method.specs.Intervals.{holds};
ghost use Rattle.method.specs.Strike.{strike};
ghost use Rattle.grid.specs.Limits.{bracket_record};
ghost use Rattle.counts.specs.Spans.{spans_in, Moved};
ghost use Rattle.counts.specs.Tally.{CanChange, Changed, Since};

use crate::spans::interval_in;
use crate::tally::{Comes, Goes, Tally};
use grid::limits::{BAG_ROOM, BRACKET_RECORD};
use grid::lines::{Column, Line};

#[derive(Drop)]
pub struct Bag {
    pub records: [u8; BAG_ROOM],
    pub count: usize,
    ghost fits: { count * bracket_record ≤ length records },
}

// The k-th record also as the j-th.
fn move_record(list: &mut [u8], k: usize, j: usize)
    requires { (j ≤ k) × (k * bracket_record + 1 < length list.old) }
    ensures { Moved list.old k j list.new }
{
    let from = k * BRACKET_RECORD;
    let to = j * BRACKET_RECORD;
    let left = list[from];
    let right = list[from + 1];
    list[to] = left;
    list[to + 1] = right;
}

impl Bag {
    // The bag comes into the counts.
    pub fn enter(&self, tally: &mut Tally)
        requires { CanChange true tally.old.falls tally.old.rises (spans_in self.now.records 0 self.now.count) }
        ensures { Changed true tally.old.falls tally.old.rises (spans_in self.now.records 0 self.now.count) tally.new.falls tally.new.rises }
    {
        for k in 0..self.count {
            tally.count_bracket::<Comes>(interval_in(&self.records, k));
        }
    }

    // Strikes every bracket that holds the column from the bag and from the counts; those that are kept move up.
    // The least line at which one began that was struck, or `first` where none began before it.
    pub fn strike(&mut self, column: Column, first: Line, tally: &mut Tally) -> Line
        requires { CanChange false tally.old.falls tally.old.rises (keep (holds column.0) (spans_in self.old.records 0 self.old.count)) }
        ensures struck { spans_in self.new.records 0 self.new.count ≡ strike column.0 (spans_in self.old.records 0 self.old.count) }
        ensures changed { Changed false tally.old.falls tally.old.rises (keep (holds column.0) (spans_in self.old.records 0 self.old.count)) tally.new.falls tally.new.rises }
        ensures since { Since first.0 (keep (holds column.0) (spans_in self.old.records 0 self.old.count)) result.0 }
    {
        let mut kept: usize = 0;
        let mut least = first;
        let count = self.count;
        for k in 0..count {
            let i = interval_in(&self.records, k);
            if i.holds(column) {
                tally.count_bracket::<Goes>(i);
                least = least.min(i.left);
            } else {
                move_record(&mut self.records, k, kept);
                kept += 1;
            }
        }
        self.count = kept;
        least
    }
}
