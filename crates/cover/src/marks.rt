// Marks: those that were noted by column, each on the lowest row that shows its interval, written in the columns' order.
ghost use Rattle.std.specs.Prelude.{◌≡◌, ◌+◌, ◌-◌, ◌*◌, ◌^◌, ◌<◌, ◌≤◌, length, get_or, take, IfSome};
ghost use Rattle.grid.specs.Limits.{side, bracket_record, mark_record, mark_room_size};
ghost use Rattle.grid.specs.Lines.{span_of};
ghost use Rattle.grid.specs.Rooms.{written};
ghost use Rattle.counts.specs.Spans.{span_in};
ghost use Rattle.cover.specs.Code.{square_of, squares_of, row_past, past_left, past_right, row_between, NotedTo, marked_in, marks_noted, MarksAdded, MarksDone};
ghost use Rattle.cover.specs.Records.{mark_bytes};

use crate::sheet::Edges;
use columns::reach::greatest;
use counts::spans::interval_in;
use grid::lines::{Column, Interval, Line, Mark, Row};
use grid::rooms::put_record;

impl Edges<'_> {
    // The first row from y on in which the column is not copper.
    fn row_past(self, column: Column, y: u8) -> u8
        requires { (column.0 < length self.bottoms.now) × (column.0 < length self.ends.now) }
        ensures { result ≡ row_past (get_or self.entry.bottoms.now column.0 0) (get_or self.entry.ends.now column.0 0) y }
    {
        if y < self.bottoms[column.0] {
            return y;
        }
        self.ends[column.0].max(y)
    }

    // The same of the column to the left of a line: of line 0 there is none.
    fn past_left(self, line: Line, y: u8) -> u8
        requires { (line.0 ≤ length self.bottoms.now) × (line.0 ≤ length self.ends.now) }
        ensures { result ≡ past_left self.entry.bottoms.now self.entry.ends.now line.0 y }
    {
        if line == Line(0) {
            return y;
        }
        self.row_past(line.column_before(), y)
    }

    // The same of the column to the right of a line: of the last line there is none.
    fn past_right(self, last: Line, line: Line, y: u8) -> u8
        requires { (last.0 ≤ length self.bottoms.now) × (last.0 ≤ length self.ends.now) }
        ensures { result ≡ past_right last.0 self.entry.bottoms.now self.entry.ends.now line.0 y }
    {
        if last <= line {
            return y;
        }
        self.row_past(line.column_after(), y)
    }

    // The lowest row that shows the interval as a slice: copper in all its columns and in neither of those beside it.
    // Past the right column the left one may be copper again; past both ends neither is.
    fn mark_row(self, last: Line, i: Interval) -> Row
        requires { (i.left.0 ≤ i.right.0) × (i.right.0 ≤ last.0) × (last.0 ≤ length self.bottoms.now) × (last.0 ≤ length self.ends.now) }
        ensures result_value { result.0 ≡ row_between last.0 self.entry.bottoms.now self.entry.ends.now (span_of i) }
        ensures result_bound { result.0 < 2 ^ 8 }
    {
        let first = i.left.column_after();
        let end = i.right.column_after();
        let low = greatest(self.bottoms, first.0, end.0);
        let left = self.past_left(i.left, low);
        let right = self.past_right(last, i.right, left);
        Row(self.past_left(i.left, right) as usize)
    }

    // The mark that is noted for a column, if one is.
    fn noted_mark(self, last: Line, noted: &[u8], column: Column) -> Option<Mark>
        requires within { ((span_in noted.now column.0).right ≤ last.0) × (last.0 ≤ length self.bottoms.now) × (last.0 ≤ length self.ends.now) }
        requires lent { column.0 * bracket_record + 1 < length noted.now }
        ensures value { squares_of result ≡ marked_in (row_between last.0 self.entry.bottoms.now self.entry.ends.now) noted.now column.0 }
        ensures bound { IfSome result (λ m. (m.column ≡ column) × (m.row.0 < 2 ^ 8)) }
    {
        let i = interval_in(noted, column.0);
        if i.length() == 0 {
            return None;
        }
        let row = self.mark_row(last, i);
        Some(Mark { column, row })
    }
}

// The n-th record of the room.
fn put_mark(room: &mut [u8], n: usize, mark: Mark)
    requires { (mark.column.0 < 2 ^ 8) × (mark.row.0 < 2 ^ 8) × (n < side) × (mark_room_size ≤ length room.old) }
    ensures { room.new ≡ written room.old (n * mark_record) (mark_bytes (square_of mark)) }
{
    put_record(room, n, &[mark.column.0 as u8, mark.row.0 as u8]);
}

// The mark that is noted for a column, behind the n written, if there are to be more.
fn write_mark(
    last: Line,
    edges: Edges,
    noted: &[u8],
    column: Column,
    most: usize,
    room: &mut [u8],
    n: usize,
) -> usize
    requires within { ((span_in noted.now column.0).right ≤ last.0) × (last.0 ≤ length edges.bottoms.now) × (last.0 ≤ length edges.ends.now) × (column.0 < side) }
    requires lent { (column.0 * bracket_record + 1 < length noted.now) × (n < side) × (mark_room_size ≤ length room.old) }
    ensures { MarksAdded (take (most - n) (marked_in (row_between last.0 edges.entry.bottoms.now edges.entry.ends.now) noted.now column.0)) room.old n result room.new }
{
    if most <= n {
        return n;
    }
    let Some(mark) = edges.noted_mark(last, noted, column) else {
        return n;
    };
    put_mark(room, n, mark);
    n + 1
}

// The first marks by column, at most `most` of them.
pub fn write_marks(last: Line, edges: Edges, noted: &[u8], most: usize, room: &mut [u8]) -> usize
    requires within { (last.0 ≤ side) × (last.0 ≤ length edges.bottoms.now) × (last.0 ≤ length edges.ends.now) × NotedTo last.0 noted.now }
    requires lent { (last.0 * bracket_record ≤ length noted.now) × (mark_room_size ≤ length room.old) }
    ensures { MarksDone (take most (marks_noted (row_between last.0 edges.entry.bottoms.now edges.entry.ends.now) noted.now last.0)) room.old result room.new }
{
    let end = last.column_after();
    let mut n = 0;
    for c in 0..end.0 {
        n = write_mark(last, edges, noted, Column(c), most, room, n);
    }
    n
}
