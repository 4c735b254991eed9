// Rule 4: the outermost intervals inside a bracket give way to the meets of neighbours.
ghost use Rattle.std.specs.Prelude.{◌≡◌, ◌≤◌, max};
ghost use Rattle.lists.specs.Lists.{first, down};
ghost use Rattle.method.specs.Reduce.{reduce};
ghost use Rattle.grid.specs.Lines.{line, span_of};
ghost use Rattle.words.specs.Words.{bits, on, past_of};
ghost use Rattle.intervals.specs.Table.{table_of};
ghost use Rattle.intervals.specs.Spans.{spans};
ghost use Rattle.intervals.specs.Reach.{reach};

use crate::Table;
use grid::lines::{Interval, Line};

// The greatest line up to `to` that the word of a row has, or `from` where it has none beyond it.
fn reached(row: u64, from: Line, to: Line) -> Line
    requires { to.0 ≤ bits }
    ensures { result ≡ line (max from.0 (past_of (first (on row) (down to.0)))) }
{
    // One past a bit is the right line that it stands for.
    Line(from.0.max(words::last_on(row, to.0)))
}

// The greatest line up to `to` at which an interval from `left` ends, or `from` where none ends beyond it.
pub fn furthest(t: &Table, left: Line, from: Line, to: Line) -> Line
    ensures { result ≡ line (reach (spans t.now) left.0 from.0 to.0) }
{
    let asked = Interval::up_to(t.last).meet(Interval { left, right: to });
    reached(t.row(left), from, asked.right)
}

// One pass over left lines, with the last outermost interval so far: the next one reaches beyond it, and their meet takes its place.
// It starts with none, the empty interval at the bracket's left line; `put` leaves an empty meet out.
pub fn reduce(t: &mut Table, d: Interval)
    ensures rows { t.new.rows ≡ table_of (reduce t.old.last.0 (spans t.old) (span_of d)) }
    ensures last { t.new.last ≡ t.old.last }
{
    // The same for each row, so it is found once.
    let asked = Interval::up_to(t.last).meet(d);
    let mut outer = Interval {
        left: d.left,
        right: d.left,
    };
    for l in d.left.0..d.right.0 {
        let left = Line(l);
        let next = Interval {
            left,
            right: reached(t.row(left), outer.right, asked.right),
        };
        if outer.right < next.right {
            t.take(next);
            t.put(outer.meet(next));
            outer = next;
        }
    }
}
