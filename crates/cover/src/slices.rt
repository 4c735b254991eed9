// Slices, and the starting set (rule 1).
ghost use Rattle.std.specs.Prelude.{◌≡◌, false, [], ◌<◌, ◌≤◌, length};
ghost use Rattle.grid.specs.Limits.{side};
ghost use Rattle.grid.specs.Lines.{line, span_of};
ghost use Rattle.grid.specs.Code.{area_in};
ghost use Rattle.words.specs.Words.{bits, on};
ghost use Rattle.intervals.specs.Table.{table_of};
ghost use Rattle.intervals.specs.Spans.{spans};
ghost use Rattle.cover.specs.Slices;
ghost use Rattle.cover.specs.Slices.{copper_along};
ghost use Rattle.cover.specs.Code.{Columned, Within, Rowed, between, flipped_at, changing, next_slice, with_changed};

use crate::sheet::Edges;
use grid::limits::LINES;
use grid::lines::{Column, Interval, Line, Row};
use grid::raster::{Raster, Size};
use intervals::Table;
use words::{both, differing, flipped, last_off, next_off, next_on, spread};

// The line to the right of the job's last column.
pub fn last_line(size: Size) -> Line
    ensures { result ≡ line size.width }
{
    Line(size.width)
}

pub fn copper_along(raster: Raster, row: Row, i: Interval) -> bool
    ensures { result ≡ copper_along (area_in raster.entry.size raster.entry.bytes.now) row.0 (span_of i) }
{
    let first = i.left.column_after();
    let end = i.right.column_after();
    (first.0..end.0).all(|c| raster.is_copper(Column(c), row))
}

// Turns each column over in the row that is given for it.
fn flip(rows: &mut [u64], at: &[u8])
    requires { Within (length rows.old) at.now × (length at.now ≤ bits) }
    ensures { Rowed (flipped_at at.now (length at.now) rows.old) rows.new }
{
    for (c, &y) in at.iter().enumerate() {
        let y = y as usize;
        rows[y] = flipped(rows[y], c);
    }
}

// For each row the columns whose copper begins or ends there: what changes from the row below. Into rows of nothing, so that none are copied.
fn changes(width: usize, edges: Edges, rows: &mut [u64; LINES])
    requires columned { Columned width edges.bottoms.now edges.ends.now }
    requires rowed { Rowed (λ y c. false) rows.old }
    ensures { Rowed (changing width edges.entry.bottoms.now edges.entry.ends.now) rows.new }
{
    flip(rows, &edges.bottoms[..width]);
    flip(rows, &edges.ends[..width]);
}

// The row's next slice, from a line on, that has a touched column in it.
fn next_slice(row: u64, touched: u64, last: Line, at: Line) -> Option<Interval>
    requires { last.0 ≤ bits }
    ensures { result ≡ next_slice (on row) (on touched) last.0 at.0 }
{
    let c = next_on(touched, at.0);
    if last.0 <= c {
        return None;
    }
    // The run that holds c begins one past the last bare column before it.
    Some(Interval {
        left: Column(last_off(row, c)).left_line(),
        right: Column(next_off(row, c)).left_line(),
    })
}

// The slices of a row that have a change in them or beside them; every other slice the row below shows too.
fn put_changed(t: &mut Table, row: u64, changed: u64)
    requires { on row t.old.last.0 ≡ false }
    ensures rows { t.new.rows ≡ table_of (with_changed t.old.last.0 (on row) (on changed) (spans t.old)) }
    ensures last { t.new.last ≡ t.old.last }
{
    let touched = both(spread(changed), row);
    let mut at = Line(0);
    while let Some(slice) = next_slice(row, touched, t.last, at) {
        t.put(slice);
        at = slice.right;
    }
}

// The starting set into a table of no interval, row after row, each by what changes from the row below.
pub fn put_starting(size: Size, edges: Edges, t: &mut Table)
    requires columned { Columned size.width edges.bottoms.now edges.ends.now × (size.height ≤ side) }
    requires empty { (t.old.rows ≡ table_of []) × (t.old.last ≡ line size.width) }
    ensures rows { t.new.rows ≡ table_of (Slices.starting (between size.width edges.entry.bottoms.now edges.entry.ends.now) size.width size.height) }
    ensures last { t.new.last ≡ line size.width }
{
    let mut rows = [0u64; LINES];
    changes(size.width, edges, &mut rows);
    let mut row: u64 = 0;
    for &changed in &rows[..size.height] {
        row = differing(row, changed);
        put_changed(t, row, changed);
    }
}

pub fn starting(size: Size, edges: Edges) -> Table
    requires { Columned size.width edges.bottoms.now edges.ends.now × (size.height ≤ side) }
    ensures rows { result.rows ≡ table_of (Slices.starting (between size.width edges.entry.bottoms.now edges.entry.ends.now) size.width size.height) }
    ensures last { result.last ≡ line size.width }
{
    let mut t = Table::empty(last_line(size));
    put_starting(size, edges, &mut t);
    t
}
