// Rule 5: reduce until no bracket is dependent. Each bracket is noted in a lent room, in order.
ghost use Rattle.std.specs.Prelude.{◌≡◌, ◌+◌, ◌*◌, ◌^◌, ◌≤◌, ◌<◌, length};
ghost use Rattle.method.specs.Final.{final};
ghost use Rattle.grid.specs.Limits.{bracket_record};
ghost use Rattle.grid.specs.Lines.{span_of};
ghost use Rattle.grid.specs.Rooms.{written};
ghost use Rattle.intervals.specs.Table.{table_of};
ghost use Rattle.intervals.specs.Spans.{spans};
ghost use Rattle.intervals.specs.Finished.{bracket_bytes, Roomy, Finished};

use crate::Table;
use crate::bracket::bracket;
use crate::reduce::reduce;
use crate::sweep::final_set_swept;
use grid::limits::{BRACKET_RECORD, BRACKET_ROOM};
use grid::lines::Interval;

// The n-th record of the room. Byte by byte, and not as a slice that is copied: so a room that nobody reads takes no stack.
pub fn note_bracket(room: &mut [u8], n: usize, d: Interval)
    requires { (d.left.0 < 2 ^ 8) × (d.right.0 < 2 ^ 8) × (n * bracket_record + bracket_record ≤ length room.old) }
    ensures { room.new ≡ written room.old (n * bracket_record) (bracket_bytes (span_of d)) }
{
    let spot = n * BRACKET_RECORD;
    room[spot] = d.left.0 as u8;
    room[spot + 1] = d.right.0 as u8;
}

// By the plain search, anew for each reduction. Answers how many there were.
pub fn final_set(t: &mut Table, room: &mut [u8]) -> usize
    requires roomy { Roomy (spans t.old) room.old }
    ensures finished { Finished t.old.last.0 (spans t.old) room.old result t.new.rows room.new }
    ensures last { t.new.last ≡ t.old.last }
{
    let mut reductions: usize = 0;
    while let Some(d) = bracket(t) {
        note_bracket(room, reductions, d);
        reduce(t, d);
        reductions += 1;
    }
    reductions
}

// A bracket search, by the final set that it leads to: nothing tells which it was.
pub trait Search {
    fn finish(t: &mut Table, room: &mut [u8]) -> usize
        requires roomy { Roomy (spans t.old) room.old }
        ensures finished { Finished t.old.last.0 (spans t.old) room.old result t.new.rows room.new }
        ensures last { t.new.last ≡ t.old.last };
}

#[derive(Clone, Copy)]
pub struct Plain;

#[derive(Clone, Copy)]
pub struct Swept;

impl Search for Plain {
    fn finish(t: &mut Table, room: &mut [u8]) -> usize {
        final_set(t, room)
    }
}

impl Search for Swept {
    fn finish(t: &mut Table, room: &mut [u8]) -> usize {
        final_set_swept(t, room)
    }
}

// The set gives way to its final set; nobody asks for the brackets.
pub fn finish_unnoted<S: Search>(t: &mut Table)
    ensures rows { t.new.rows ≡ table_of (final t.old.last.0 (spans t.old)) }
    ensures last { t.new.last ≡ t.old.last }
{
    let mut room = [0u8; BRACKET_ROOM];
    S::finish(t, &mut room);
}

// The set's final set as a table of its own.
pub fn final_copy<S: Search>(set: &Table) -> Table
    ensures rows { result.rows ≡ table_of (final set.now.last.0 (spans set.now)) }
    ensures last { result.last ≡ set.now.last }
{
    let mut work = *set;
    finish_unnoted::<S>(&mut work);
    work
}
