// Rule 2: each column of the bracket lies in at least two of the intervals inside it.
ghost use Rattle.std.specs.Prelude.{◌≡◌};
ghost use Rattle.method.specs.Dependent.{dependent};
ghost use Rattle.grid.specs.Lines.{span_of};
ghost use Rattle.intervals.specs.Spans.{spans};
ghost use Rattle.intervals.specs.Tops.{WithRow};

use crate::Table;
use crate::reduce::furthest;
use grid::lines::{Interval, Line};

// The two greatest of several right lines, repeats counted; where there are fewer, the line from which they are looked for.
#[derive(Clone, Copy)]
pub struct Tops {
    pub greater: Line,
    pub lesser: Line,
}

// Takes in the intervals from line `left` that end at line `right` or before, looking down to the lesser line only.
fn with_row(t: &Table, left: Line, right: Line, tops: Tops) -> Tops
    ensures { WithRow (spans t.now) left.0 right.0 tops result }
{
    let greater = tops.greater;
    let one = furthest(t, left, tops.lesser, right);
    if one <= greater {
        return Tops {
            greater,
            lesser: one,
        };
    }
    Tops {
        greater: one,
        lesser: furthest(t, left, greater, Line(one.0 - 1)),
    }
}

pub fn dependent(t: &Table, d: Interval) -> bool
    ensures { result ≡ dependent (spans t.now) (span_of d) }
{
    if !t.within(d) {
        return false;
    }
    let mut tops = Tops {
        greater: d.left,
        lesser: d.left,
    };
    for l in d.left.0..d.right.0 {
        tops = with_row(t, Line(l), d.right, tops);
        // The column after line l: no later row holds it.
        if tops.lesser <= Line(l) {
            return false;
        }
    }
    true
}
