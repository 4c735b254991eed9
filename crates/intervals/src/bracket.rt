// Rule 5's bracket: the minimal one with the least right line.
ghost use Rattle.std.specs.Prelude.{◌≡◌};
ghost use Rattle.method.specs.Final.{leftmost};
ghost use Rattle.intervals.specs.Table.{found_of};
ghost use Rattle.intervals.specs.Spans.{spans};
ghost use Rattle.intervals.specs.Search.{NoneBefore};

use crate::Table;
use crate::dependent::dependent;
use grid::lines::{Interval, Line};

// The first dependent bracket by right line, and there the shortest, where none ends before line `from`.
pub fn bracket_from(t: &Table, from: Line) -> Option<Interval>
    requires none_before { NoneBefore (spans t.now) from.0 }
    ensures { result ≡ found_of (leftmost t.now.last.0 (spans t.now)) }
{
    let end = t.last.0;
    let mut right = from.0;
    'search: loop {
        if end < right {
            break 'search None;
        }
        for left in (0..right).rev() {
            let d = Interval {
                left: Line(left),
                right: Line(right),
            };
            if dependent(t, d) {
                break 'search Some(d);
            }
        }
        right += 1;
    }
}

// The search from line 0: no bracket ends before it.
pub fn bracket(t: &Table) -> Option<Interval>
    ensures { result ≡ found_of (leftmost t.now.last.0 (spans t.now)) }
{
    bracket_from(t, Line(0))
}
