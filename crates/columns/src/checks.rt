// The checks of the raster's bytes by one pass, row by row, that leaves each column's bottom and end behind.
// The loop over a row has no exit and no branch, so that many columns are one step of the machine.
ghost use Rattle.std.specs.Prelude.{◌≡◌, ◌<◌, ◌≤◌, length, cond};
ghost use Rattle.grid.specs.Limits.{side};
ghost use Rattle.grid.specs.Answers.{answered, first_refusal};
ghost use Rattle.grid.specs.Code.{area_in};
ghost use Rattle.columns.specs.Columns.{Bare, Filled, bottom_at, end_at, raster_checks};
ghost use Rattle.columns.specs.Code.{fits, bottom_after, end_after, RowTaken, RowsTaken};

use grid::answers::Refusal;
use grid::raster::Raster;

// Whether a byte does not fit, counted. By cases, since the loop over a row then takes 16 columns a step, and not 8 where there are fewer than 32.
fn misfit(y: u8, byte: u8, end: u8) -> u8
    ensures { (result ≡ cond (fits y byte end) 0 1) × (result ≤ 1) }
{
    if byte == 0 {
        return 0;
    }
    if byte != 1 {
        return 1;
    }
    if end == 0 {
        return 0;
    }
    if end == y {
        return 0;
    }
    1
}

fn bottom_after(y: u8, byte: u8, end: u8, bottom: u8) -> u8
    ensures { result ≡ bottom_after y byte end bottom }
{
    if byte == 1 && end == 0 { y } else { bottom }
}

fn end_after(y: u8, byte: u8, end: u8) -> u8
    requires { y < side }
    ensures { result ≡ end_after y byte end }
{
    if byte == 1 { y + 1 } else { end }
}

// Row y of the raster; answers how many of its bytes do not fit.
fn take_row(y: u8, row: &[u8], bottoms: &mut [u8], ends: &mut [u8]) -> u8
    requires { (y < side) × (length row.now ≤ side) × (length row.now ≤ length bottoms.old) × (length row.now ≤ length ends.old) }
    ensures { RowTaken y row.now (length row.now) bottoms.old ends.old result bottoms.new ends.new }
{
    let mut misfits: u8 = 0;
    for (c, &byte) in row.iter().enumerate() {
        let end = ends[c];
        misfits += misfit(y, byte, end);
        bottoms[c] = bottom_after(y, byte, end, bottoms[c]);
        ends[c] = end_after(y, byte, end);
    }
    misfits
}

// All rows, from the lowest up; answers how many bytes do not fit. By number and not by `chunks_exact`: what is known of all rows at once is tested once, and not for each.
fn take_rows(raster: Raster, bottoms: &mut [u8], ends: &mut [u8]) -> usize
    requires width_in_bounds { (raster.size.width ≤ length bottoms.old) × (raster.size.width ≤ length ends.old) }
    requires bare { Bare raster.size.width bottoms.old × Bare raster.size.width ends.old }
    ensures { RowsTaken raster.entry.size.width raster.entry.size.height raster.entry.bytes.now raster.entry.size.height bottoms.old ends.old result bottoms.new ends.new }
{
    let width = raster.size.width;
    let mut misfits: usize = 0;
    for y in 0..raster.size.height {
        let from = y * width;
        let row = &raster.bytes[from..from + width];
        misfits += usize::from(take_row(y as u8, row, bottoms, ends));
    }
    misfits
}

// The place of what was met: first the bytes, then the columns.
#[tactic(auto, unfolding(grid::specs::Answers::first_refusal, grid::specs::Answers::or_else))]
fn refusal(raster: Raster) -> Result<(), Refusal>
    ensures { answered result ≡ first_refusal (raster_checks raster.entry.size.width raster.entry.size.height raster.entry.bytes.now) }
{
    if let Some((column, row)) = raster.bad_byte() {
        return Err(Refusal::BadByte(column, row));
    }
    if let Some((column, row)) = raster.broken() {
        return Err(Refusal::BrokenColumn(column, row));
    }
    Ok(())
}

// The checks 7 and 8, and each column's bottom and end, whatever the checks say; both rooms have zeros before.
pub fn columns_checked(raster: Raster, bottoms: &mut [u8], ends: &mut [u8]) -> Result<(), Refusal>
    requires width_in_bounds { (raster.size.width ≤ length bottoms.old) × (raster.size.width ≤ length ends.old) }
    requires bare { Bare raster.size.width bottoms.old × Bare raster.size.width ends.old }
    ensures value { answered result ≡ first_refusal (raster_checks raster.entry.size.width raster.entry.size.height raster.entry.bytes.now) }
    ensures filled { Filled raster.entry.size.width (bottom_at (area_in raster.entry.size raster.entry.bytes.now) raster.entry.size.height) bottoms.old bottoms.new }
    ensures filled_2 { Filled raster.entry.size.width (end_at (area_in raster.entry.size raster.entry.bytes.now) raster.entry.size.height) ends.old ends.new }
{
    if take_rows(raster, bottoms, ends) == 0 {
        return Ok(());
    }
    refusal(raster)
}
