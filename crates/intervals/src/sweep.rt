// The engine: right lines from the left, each until no dependent bracket ends there. For a right line one sweep down the left lines finds
// the shortest; a row comes in by its greatest right line, and by the next one only where that may close a bracket.
// A dependent bracket's last column is held twice, so the engine goes only to lines at which two intervals of the first set end.
ghost use Rattle.std.specs.Prelude.{◌≡◌, ◌+◌, ◌<◌};
ghost use Rattle.method.specs.Final.{leftmost};
ghost use Rattle.intervals.specs.Table.{found_of};
ghost use Rattle.intervals.specs.Spans.{spans};
ghost use Rattle.intervals.specs.Search.{NoneBefore};
ghost use Rattle.intervals.specs.Finished.{Roomy, Finished};
ghost use Rattle.intervals.specs.Sweep.{Swept, Told, EndsAmong};

use crate::Table;
use crate::final_set::note_bracket;
use crate::reduce::{furthest, reduce};
use grid::lines::{Interval, Line};

// The least lines from which every column up to the right line is held twice, and once, by the intervals seen so far.
#[derive(Clone, Copy)]
pub struct Held {
    pub twice: Line,
    pub once: Line,
}

// The intervals from line `left` that end at line `right` or before come in; nothing is held on where the bracket is dependent.
fn stepped(t: &Table, left: Line, right: Line, held: Held) -> Option<Held>
    requires left_lt_right { left.0 < right.0 }
    requires swept { Swept (spans t.now) (left.0 + 1) right.0 held }
    ensures { Told (spans t.now) left.0 right.0 result }
{
    let Held { twice, once } = held;
    let greater = furthest(t, left, Line(0), right);
    // The quick way out first: a row that reaches neither line changes nothing.
    if greater < once {
        return Some(held);
    }
    if greater < twice {
        return Some(Held { twice, once: left });
    }
    let lesser = furthest(t, left, Line(0), Line(greater.0 - 1));
    if once <= lesser {
        return None;
    }
    Some(Held {
        twice: once,
        once: left,
    })
}

// Rule 5's bracket, where none ends before line `from`, nor at a line whose bit is off.
fn bracket_from(t: &Table, from: Line, doubled: u64) -> Option<Interval>
    requires none_before { NoneBefore (spans t.now) from.0 }
    requires ends_among { EndsAmong doubled (spans t.now) }
    ensures { result ≡ found_of (leftmost t.now.last.0 (spans t.now)) }
{
    let mut right = from.0;
    'search: loop {
        let mut held = Held {
            twice: Line(right),
            once: Line(right),
        };
        for l in (0..right).rev() {
            let Some(next) = stepped(t, Line(l), Line(right), held) else {
                break 'search Some(Interval {
                    left: Line(l),
                    right: Line(right),
                });
            };
            held = next;
        }
        // The bits from `right` on are the lines beyond it; where none is on, the answer lies past the last line.
        let bit = words::next_on(doubled, right);
        if t.last.0 <= bit {
            break 'search None;
        }
        right = bit + 1;
    }
}

// Answers how many reductions there were; each bracket is noted in the room, in order.
pub fn final_set_swept(t: &mut Table, room: &mut [u8]) -> usize
    requires roomy { Roomy (spans t.old) room.old }
    ensures finished { Finished t.old.last.0 (spans t.old) room.old result t.new.rows room.new }
    ensures last { t.new.last ≡ t.old.last }
{
    // Of the first set: a reduction makes no new dependence.
    let doubled = t.doubled();
    let mut right = Line(0);
    let mut reductions: usize = 0;
    while let Some(d) = bracket_from(t, right, doubled) {
        note_bracket(room, reductions, d);
        reduce(t, d);
        // The same line again: another bracket may end there.
        right = d.right;
        reductions += 1;
    }
    reductions
}
