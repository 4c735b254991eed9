// Bare squares: copper that lies in no flash of the list.
ghost use Rattle.std.specs.Prelude.{◌≡◌};
ghost use Rattle.lists.specs.Lists.{any};
ghost use Rattle.grid.specs.Squares.{square};
ghost use Rattle.grid.specs.Code.{area_in, place_of};
ghost use Rattle.cover.specs.Code.{rectangle_of};
ghost use Rattle.listcheck.specs.FlashList.{flashes_of};
ghost use Rattle.listcheck.specs.Code.{found_of};
ghost use Rattle.listcheck.specs.Verdict.{holds_square, bare, first_bare, bare_square};

use crate::lines::Flashes;
use cover::flashes::Flash;
use grid::lines::{Column, Row};
use grid::raster::Raster;

#[tactic(auto, unfolding(crate::specs::Verdict::holds_square, crate::specs::Verdict::between))]
fn holds(q: Flash, column: Column, row: Row) -> bool
    ensures { result ≡ holds_square (square column.0 row.0) (rectangle_of q) }
{
    (q.first..=q.last).contains(&column) && (q.bottom..=q.top).contains(&row)
}

// Some flash of the list holds the square.
pub fn is_held(list: &[u8], column: Column, row: Row) -> bool
    ensures { result ≡ any (holds_square (square column.0 row.0)) (flashes_of list.now) }
{
    Flashes::of(list).any(|q| holds(q, column, row))
}

#[tactic(auto, unfolding(crate::specs::Verdict::bare))]
fn is_bare(raster: Raster, list: &[u8], column: Column, row: Row) -> bool
    ensures { result ≡ bare (area_in raster.entry.size raster.entry.bytes.now) (flashes_of list.now) (square column.0 row.0) }
{
    raster.is_copper(column, row) && !is_held(list, column, row)
}

// The place in the raster of the first bare square.
fn first_bare(raster: Raster, list: &[u8]) -> Option<usize>
    ensures { result ≡ found_of (first_bare (area_in raster.entry.size raster.entry.bytes.now) raster.entry.size.width raster.entry.size.height (flashes_of list.now)) }
{
    let w = raster.size.width;
    (0..raster.bytes.len()).find(|i| is_bare(raster, list, Column(*i % w), Row(*i / w)))
}

// The first bare square in raster order.
pub fn bare_square(raster: Raster, list: &[u8]) -> Option<(Column, Row)>
    ensures { result ≡ place_of (bare_square (area_in raster.entry.size raster.entry.bytes.now) raster.entry.size.width raster.entry.size.height (flashes_of list.now)) }
{
    let i = first_bare(raster, list)?;
    let w = raster.size.width;
    Some((Column(i % w), Row(i / w)))
}
