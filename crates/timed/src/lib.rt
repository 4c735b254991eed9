// For the benchmark alone, and not in the library: final sets of an area's starting set by themselves, so many that the clock can tell.
#![tactic(auto)]

ghost use Rattle.std.specs.Prelude.{◌≡◌, ◌++◌, length, IfOk};
ghost use Rattle.method.specs.Final.{final};
ghost use Rattle.grid.specs.Answers.{answered, first_refusal};
ghost use Rattle.grid.specs.Limits.{flash_room_size, mark_room_size};
ghost use Rattle.grid.specs.Raster.{area_of};
ghost use Rattle.columns.specs.Columns.{raster_checks};
ghost use Rattle.intervals.specs.Table.{table_of};
ghost use Rattle.intervals.specs.Spans.{spans};
ghost use Rattle.cover.specs.Code.{size_checks};
ghost use Rattle.cover.specs.Sheets.{copper_of, starting_of};
ghost use Rattle.timed.specs.Timed.{FinalSize};

use cover::entry::sizes_checked;
use cover::sheet::{Edges, Sheet};
use cover::slices::starting;
use grid::answers::Refusal;
use grid::limits::{FLASH_ROOM, MARK_ROOM};
use intervals::Table;
use intervals::final_set::{Plain, Search, Swept, final_copy};

// Once, and so many times more.
fn repeat<S: Search>(set: &Table, more: u64) -> Table
    ensures rows { result.rows ≡ table_of (final set.now.last.0 (spans set.now)) }
    ensures last { result.last ≡ set.now.last }
{
    let mut work = final_copy::<S>(set);
    for _ in 0..more {
        work = final_copy::<S>(set);
    }
    work
}

// How many intervals the sheet's final set has, found by either search.
fn final_size<S: Search>(sheet: &Sheet, more: u64) -> u64
    ensures { result ≡ length (final sheet.now.size.width (starting_of sheet.now)) }
{
    let edges = Edges {
        bottoms: &sheet.bottoms,
        ends: &sheet.ends,
    };
    repeat::<S>(&starting(sheet.size, edges), more).size() as u64
}

// What the cover would refuse is refused.
fn sheet_checked(width: u64, height: u64, raster: &[u8]) -> Result<Sheet, Refusal>
    ensures value { answered result ≡ first_refusal (size_checks width height 0 (length raster.now) flash_room_size mark_room_size ++ raster_checks width height raster.now) }
    ensures sheet { IfOk result (λ s. (s.size.width ≡ width) × (s.size.height ≡ height) × (copper_of s ≡ area_of width height raster.now)) }
{
    Sheet::checked(sizes_checked(width, height, 0, raster, FLASH_ROOM, MARK_ROOM)?)
}

// By the plain search where `plain` is 1. What the cover would refuse gives 0.
#[unsafe(no_mangle)]
pub extern "C" fn timed_final_sets(
    width: u64,
    height: u64,
    raster: &[u8],
    plain: u64,
    more: u64,
) -> u64
    ensures { FinalSize width height raster.now result }
{
    let Ok(sheet) = sheet_checked(width, height, raster) else {
        return 0;
    };
    if plain == 1 {
        return final_size::<Plain>(&sheet, more);
    }
    final_size::<Swept>(&sheet, more)
}
