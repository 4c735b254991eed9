// Flashes (rules 6 and 7): heights are taken for the interval itself, from its columns' bottoms and ends.
ghost use Rattle.std.specs.Prelude.{◌≡◌, [], ◌∷◌, map, ◌-◌, ◌*◌, ◌<◌, ◌≤◌, length};
ghost use Rattle.grid.specs.Limits.{side, flash_record, flash_room_size};
ghost use Rattle.grid.specs.Lines.{row, span_of};
ghost use Rattle.grid.specs.Rooms.{written};
ghost use Rattle.columns.specs.Columns.{greatest_in, least_in};
ghost use Rattle.intervals.specs.Spans.{spans};
ghost use Rattle.cover.specs.Code.{rectangle_of, flash_between, from_line, Standing, AllStand, Drawn, Ready, Added, FlashesDone};
ghost use Rattle.cover.specs.Flashes.{area_of_flash};
ghost use Rattle.cover.specs.Records.{flash_bytes};

use crate::sheet::Edges;
use columns::reach::{greatest, least};
use grid::limits::FLASH_RECORD;
use grid::lines::{Column, Interval, Line, Row};
use grid::rooms::put_record;
use intervals::Table;

#[derive(Clone, Copy, Debug, PartialEq, Eq)]
pub struct Flash {
    pub first: Column,
    pub last: Column,
    pub bottom: Row,
    pub top: Row,
}

impl Flash {
    fn area(self) -> usize
        requires { Drawn (rectangle_of self) }
        ensures { result ≡ area_of_flash (rectangle_of self) }
    {
        (self.last.0 - self.first.0 + 1) * (self.top.0 - self.bottom.0 + 1)
    }

    fn record(self) -> [u8; FLASH_RECORD]
        requires { Drawn (rectangle_of self) }
        ensures { result ≡ flash_bytes (rectangle_of self) }
    {
        [
            self.first.0 as u8,
            self.last.0 as u8,
            self.bottom.0 as u8,
            self.top.0 as u8,
        ]
    }
}

// How many flashes are written, and the sum of their areas.
#[derive(Clone, Copy, Debug, PartialEq, Eq)]
pub struct Flashed {
    pub count: usize,
    pub area: usize,
}

impl Edges<'_> {
    // The lowest row that is copper in every column of the interval: the greatest bottom.
    fn lowest(self, i: Interval) -> Row
        requires { i.right.0 ≤ length self.bottoms.now }
        ensures { result ≡ row (greatest_in self.entry.bottoms.now i.left.0 (i.right.0 - i.left.0)) }
    {
        let first = i.left.column_after();
        let end = i.right.column_after();
        Row(greatest(self.bottoms, first.0, end.0) as usize)
    }

    // The highest such row: before the least end.
    fn highest(self, i: Interval) -> Row
        requires { (i.right.0 ≤ length self.ends.now) × (0 < least_in self.ends.now i.left.0 (i.right.0 - i.left.0)) }
        ensures { result ≡ row (least_in self.entry.ends.now i.left.0 (i.right.0 - i.left.0) - 1) }
    {
        let first = i.left.column_after();
        let end = i.right.column_after();
        Row(least(self.ends, first.0, end.0) as usize - 1)
    }

    fn flash_of(self, i: Interval) -> Flash
        requires { Standing self.bottoms.now self.ends.now (span_of i) }
        ensures { rectangle_of result ≡ flash_between self.entry.bottoms.now self.entry.ends.now (span_of i) }
    {
        // What stands is an interval.
        let Some((first, last)) = i.columns() else {
            unreachable!()
        };
        Flash {
            first,
            last,
            bottom: self.lowest(i),
            top: self.highest(i),
        }
    }
}

// The n-th record of the room.
pub fn put_flash(room: &mut [u8], n: usize, q: Flash)
    requires { Drawn (rectangle_of q) × (n < side) × (flash_room_size ≤ length room.old) }
    ensures { room.new ≡ written room.old (n * flash_record) (flash_bytes (rectangle_of q)) }
{
    put_record(room, n, &q.record());
}

fn write_flash(edges: Edges, i: Interval, room: &mut [u8], done: Flashed) -> Flashed
    requires standing { Standing edges.bottoms.now edges.ends.now (span_of i) }
    requires ready { Ready (flash_between edges.bottoms.now edges.ends.now (span_of i) ∷ []) done room.old }
    ensures { Added (flash_between edges.entry.bottoms.now edges.entry.ends.now (span_of i) ∷ []) room.old done result room.new }
{
    let q = edges.flash_of(i);
    put_flash(room, done.count, q);
    Flashed {
        count: done.count + 1,
        area: done.area + q.area(),
    }
}

// Those of the intervals that begin at one line, by right line.
fn write_row(edges: Edges, t: &Table, left: Line, room: &mut [u8], done: Flashed) -> Flashed
    requires standing { AllStand edges.bottoms.now edges.ends.now (spans t.now) }
    requires ready { Ready (map (flash_between edges.bottoms.now edges.ends.now) (from_line t.now.last.0 (spans t.now) left.0)) done room.old }
    ensures { Added (map (flash_between edges.entry.bottoms.now edges.entry.ends.now) (from_line t.now.last.0 (spans t.now) left.0)) room.old done result room.new }
{
    let mut done = done;
    let mut edge = left;
    while let Some(right) = t.next_end(left, edge) {
        done = write_flash(edges, Interval { left, right }, room, done);
        edge = right;
    }
    done
}

// A flash for each interval of the table, in the table's order.
pub fn write_flashes(edges: Edges, t: &Table, room: &mut [u8]) -> Flashed
    requires standing { AllStand edges.bottoms.now edges.ends.now (spans t.now) }
    requires lent { (length (spans t.now) ≤ side) × (flash_room_size ≤ length room.old) }
    ensures { FlashesDone (map (flash_between edges.entry.bottoms.now edges.entry.ends.now) (spans t.now)) room.old result room.new }
{
    let mut done = Flashed { count: 0, area: 0 };
    for l in 0..t.last.0 {
        done = write_row(edges, t, Line(l), room, done);
    }
    done
}
