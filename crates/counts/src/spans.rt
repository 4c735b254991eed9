// Intervals in a room: a record of two bytes for each.
ghost use Rattle.std.specs.Prelude.{◌≡◌, ◌+◌, ◌*◌, ◌<◌, length};
ghost use Rattle.grid.specs.Limits.{bracket_record};
ghost use Rattle.grid.specs.Lines.{span_of};
ghost use Rattle.counts.specs.Spans.{span_in};

use grid::limits::BRACKET_RECORD;
use grid::lines::{Interval, Line};

// The k-th interval of a list.
pub fn interval_in(list: &[u8], k: usize) -> Interval
    requires { k * bracket_record + 1 < length list.now }
    ensures { span_of result ≡ span_in list.now k }
{
    let at = k * BRACKET_RECORD;
    Interval {
        left: Line(usize::from(list[at])),
        right: Line(usize::from(list[at + 1])),
    }
}
