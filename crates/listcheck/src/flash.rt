// A flash of the list: it lies in the copper, or it is bad.
ghost use Rattle.std.specs.Prelude.{◌≡◌, true};
ghost use Rattle.grid.specs.Code.{area_in};
ghost use Rattle.cover.specs.Code.{rectangle_of};
ghost use Rattle.listcheck.specs.FlashList.{flashes_of};
ghost use Rattle.listcheck.specs.Verdict.{upright, on_grid, copper_rows, good, bad_line};
ghost use Rattle.listcheck.specs.Code.{found_of};

use crate::lines::Flashes;
use cover::flashes::Flash;
use cover::slices::copper_along;
use grid::lines::{Interval, Row};
use grid::raster::{Raster, Size};

#[tactic(auto, unfolding(crate::specs::Verdict::upright))]
fn is_upright(q: Flash) -> bool
    ensures { result ≡ upright (rectangle_of q) }
{
    q.first <= q.last && q.bottom <= q.top
}

#[tactic(auto, unfolding(crate::specs::Verdict::on_grid))]
fn is_on_grid(size: Size, q: Flash) -> bool
    ensures { result ≡ on_grid size.width size.height (rectangle_of q) }
{
    q.last.0 < size.width && q.top.0 < size.height
}

// Each of its rows is copper along its columns.
fn is_in_copper(raster: Raster, q: Flash) -> bool
    requires { on_grid raster.size.width raster.size.height (rectangle_of q) ≡ true }
    ensures { result ≡ copper_rows (area_in raster.entry.size raster.entry.bytes.now) (rectangle_of q) }
{
    let columns = Interval {
        left: q.first.left_line(),
        right: q.last.right_line(),
    };
    (q.bottom.0..q.top.0 + 1).all(|y| copper_along(raster, Row(y), columns))
}

// Not reversed, on the grid, and copper in every square.
#[tactic(auto, unfolding(crate::specs::Verdict::good))]
pub fn is_good(raster: Raster, q: Flash) -> bool
    ensures { result ≡ good (area_in raster.entry.size raster.entry.bytes.now) raster.entry.size.width raster.entry.size.height (rectangle_of q) }
{
    is_upright(q) && is_on_grid(raster.size, q) && is_in_copper(raster, q)
}

// The first bad flash of the list, by its line.
pub fn bad_line(raster: Raster, list: &[u8]) -> Option<usize>
    ensures { result ≡ found_of (bad_line (area_in raster.entry.size raster.entry.bytes.now) raster.entry.size.width raster.entry.size.height (flashes_of list.now)) }
{
    let place = Flashes::of(list).position(|q| !is_good(raster, q))?;
    Some(place + 1)
}
