// The entry point: everything is checked, then the work is done, then the rooms are written.
ghost use Rattle.std.specs.Prelude.{◌≡◌, ◌≤◌, length, IfOk};
ghost use Rattle.grid.specs.Limits.{allowance_limit, flash_room_size, mark_room_size};
ghost use Rattle.grid.specs.Squares.{Unbroken};
ghost use Rattle.grid.specs.Answers as Answers;
ghost use Rattle.grid.specs.Answers.{answer_of, first_refusal};
ghost use Rattle.grid.specs.Raster.{area_of};
ghost use Rattle.grid.specs.Code.{area_in};
ghost use Rattle.columns.specs.Columns.{raster_checks};
ghost use Rattle.cover.specs.Cover.{answered, cover_checks, Gives};
ghost use Rattle.cover.specs.Code.{outcome_of, short_of, covered_of, size_checks};
ghost use Rattle.cover.specs.Sheets.{copper_of, Blank};

use crate::flashes::{Flashed, write_flashes};
use crate::marks::write_marks;
use crate::sheet::{Edges, Sheet};
use crate::slices::{last_line, put_starting};
use columns::copper::heights;
use counts::{Marking, NOTES, final_marks};
use grid::answers::{DONE, Refusal, check};
use grid::limits;
use grid::raster::Raster;
use intervals::Table;
use intervals::final_set::{Plain, Swept};

#[repr(C)]
#[derive(Clone, Copy)]
pub struct Outcome {
    pub answer: u64,
    pub place_x: u64,
    pub place_y: u64,
    pub flashes: u64,
    pub marks: u64,
    pub copper: u64,
    pub flashed: u64,
}

impl From<Refusal> for Outcome {
    ghost from_gives = { λ r o. o ≡ outcome_of (answer_of r) };

    fn from(refusal: Refusal) -> Outcome
        ensures { result ≡ outcome_of (answer_of refusal) }
    {
        let answer = refusal.answer();
        Outcome {
            answer: answer.number,
            place_x: answer.x,
            place_y: answer.y,
            flashes: 0,
            marks: 0,
            copper: 0,
            flashed: 0,
        }
    }
}

impl Outcome {
    // A short allowance gives marks alone.
    fn short(marks: usize) -> Outcome
        ensures { result ≡ short_of marks }
    {
        Outcome {
            marks: marks as u64,
            ..Outcome::from(Refusal::AllowanceShort)
        }
    }

    fn covered(copper: usize, flashed: Flashed, marks: usize) -> Outcome
        ensures { result ≡ covered_of copper flashed marks }
    {
        Outcome {
            answer: DONE,
            place_x: 0,
            place_y: 0,
            flashes: flashed.count as u64,
            marks: marks as u64,
            copper: copper as u64,
            flashed: flashed.area as u64,
        }
    }
}

// The checks that need no look at the raster's bytes: 1, 2, 3, 4, 6.
#[tactic(auto, unfolding(grid::specs::Answers::first_refusal, grid::specs::Answers::or_else))]
pub fn sizes_checked<'a>(
    width: u64,
    height: u64,
    allowance: u64,
    raster: &'a [u8],
    flash_room: usize,
    mark_room: usize,
) -> Result<Raster<'a>, Refusal>
    ensures value { Answers.answered result ≡ first_refusal (size_checks width height allowance (length raster.now) flash_room mark_room) }
    ensures raster { IfOk result (λ r. (r.size.width ≡ width) × (r.size.height ≡ height) × (r.bytes ≡ raster.entry)) }
{
    let raster = Raster::checked(width, height, raster)?;
    check(limits::FLASH_ROOM <= flash_room, Refusal::FlashRoomShort)?;
    check(limits::MARK_ROOM <= mark_room, Refusal::MarkRoomShort)?;
    check(
        allowance <= limits::ALLOWANCE_LIMIT as u64,
        Refusal::AllowanceOut,
    )?;
    Ok(raster)
}

// The checks of the raster's bytes: 7, 8.
pub fn raster_checked(raster: Raster) -> Result<(), Refusal>
    ensures { Answers.answered result ≡ first_refusal (raster_checks raster.entry.size.width raster.entry.size.height raster.entry.bytes.now) }
{
    Sheet::checked(raster)?;
    Ok(())
}

// All checks before 9. Not inlined, so that what they lay out is gone before the cover's own work begins.
#[inline(never)]
fn checked(
    width: u64,
    height: u64,
    allowance: u64,
    raster: &[u8],
    flash_room: &[u8],
    mark_room: &[u8],
    sheet: &mut Sheet,
) -> Result<(), Refusal>
    requires { Blank sheet.old }
    ensures value { Answers.answered result ≡ first_refusal (cover_checks width height allowance raster.now flash_room.now mark_room.now) }
    ensures sheet { IfOk result (λ u. (sheet.new.size.width ≡ width) × (sheet.new.size.height ≡ height) × (copper_of sheet.new ≡ area_of width height raster.now)) }
{
    let raster = sizes_checked(
        width,
        height,
        allowance,
        raster,
        flash_room.len(),
        mark_room.len(),
    )?;
    sheet.fill(raster)
}

// The cover of what has passed every check. Inlined, so that one frame serves it and the sheet.
#[inline(always)]
fn cover_sheet<S: Marking>(
    sheet: &Sheet,
    allowance: usize,
    flash_room: &mut [u8],
    mark_room: &mut [u8],
) -> Outcome
    requires { (allowance ≤ allowance_limit) × (flash_room_size ≤ length flash_room.old) × (mark_room_size ≤ length mark_room.old) }
    ensures { record { outcome = result; flashes_after = flash_room.new; marks_after = mark_room.new }
        ≡ answered (copper_of sheet.now) sheet.now.size.width sheet.now.size.height allowance flash_room.old mark_room.old }
{
    let last = last_line(sheet.size);
    let edges = Edges {
        bottoms: &sheet.bottoms,
        ends: &sheet.ends,
    };
    let mut work = Table::empty(last);
    put_starting(sheet.size, edges, &mut work);
    let mut noted = [0u8; NOTES];
    let flashes = final_marks::<S>(&mut work, &mut noted);
    if allowance < flashes {
        let marks = write_marks(last, edges, &noted, allowance + 1, mark_room);
        return Outcome::short(marks);
    }
    let flashed = write_flashes(edges, &work, flash_room);
    let marks = write_marks(last, edges, &noted, limits::SIDE, mark_room);
    let copper = heights(sheet.size.width, edges.bottoms, edges.ends);
    Outcome::covered(copper, flashed, marks)
}

// The same for whoever has checked already.
pub fn cover_area<S: Marking>(
    raster: Raster,
    allowance: usize,
    flash_room: &mut [u8],
    mark_room: &mut [u8],
) -> Outcome
    requires unbroken { Unbroken (area_in raster.size raster.bytes.now) }
    requires lent { (allowance ≤ allowance_limit) × (flash_room_size ≤ length flash_room.old) × (mark_room_size ≤ length mark_room.old) }
    ensures { record { outcome = result; flashes_after = flash_room.new; marks_after = mark_room.new }
        ≡ answered (area_in raster.entry.size raster.entry.bytes.now) raster.entry.size.width raster.entry.size.height allowance flash_room.old mark_room.old }
{
    let sheet = Sheet::of(raster);
    cover_sheet::<S>(&sheet, allowance, flash_room, mark_room)
}

// The checks, and then the cover by the search that is chosen.
fn cover_checked<S: Marking>(
    width: u64,
    height: u64,
    allowance: u64,
    raster: &[u8],
    flash_room: &mut [u8],
    mark_room: &mut [u8],
) -> Outcome
    ensures { Gives width height allowance raster.now flash_room.old mark_room.old result flash_room.new mark_room.new }
{
    let mut sheet = Sheet::blank();
    match checked(
        width, height, allowance, raster, flash_room, mark_room, &mut sheet,
    ) {
        Ok(()) => cover_sheet::<S>(&sheet, allowance as usize, flash_room, mark_room),
        Err(refusal) => refusal.into(),
    }
}

pub fn keekaboor_cover(
    width: u64,
    height: u64,
    allowance: u64,
    raster: &[u8],
    flash_room: &mut [u8],
    mark_room: &mut [u8],
) -> Outcome
    ensures { Gives width height allowance raster.now flash_room.old mark_room.old result flash_room.new mark_room.new }
{
    cover_checked::<Swept>(width, height, allowance, raster, flash_room, mark_room)
}

// The same promise, by the plain search.
pub fn keekaboor_cover_plain(
    width: u64,
    height: u64,
    allowance: u64,
    raster: &[u8],
    flash_room: &mut [u8],
    mark_room: &mut [u8],
) -> Outcome
    ensures { Gives width height allowance raster.now flash_room.old mark_room.old result flash_room.new mark_room.new }
{
    cover_checked::<Plain>(width, height, allowance, raster, flash_room, mark_room)
}
