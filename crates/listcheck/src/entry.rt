// The entry point: the job is checked as for the cover, then the list's lines, then the list is judged.
ghost use Rattle.std.specs.Prelude.{◌≡◌, [], ◌≤◌, length, IfOk};
ghost use Rattle.grid.specs.Limits.{mark_room_size};
ghost use Rattle.grid.specs.Answers.{answer_of, answered, first_refusal};
ghost use Rattle.grid.specs.Squares.{Unbroken};
ghost use Rattle.grid.specs.Code.{area_in};
ghost use Rattle.cover.specs.Flashes as Flashes;
ghost use Rattle.listcheck.specs.FlashList.{flashes_of};
ghost use Rattle.listcheck.specs.Checked.{refused_at, sound_with, judged, list_checks, Gives};
ghost use Rattle.listcheck.specs.Code.{checked_of, told_of, given_of};

use crate::bare::bare_square;
use crate::flash::bad_line;
use crate::lines::count_lines;
use cover::entry::{cover_area, raster_checked, sizes_checked};
use grid::answers::{DONE, Refusal, check};
use grid::limits;
use grid::lines::{Column, Row};
use grid::raster::Raster;
use intervals::final_set::Swept;

#[repr(C)]
#[derive(Clone, Copy)]
pub struct Checked {
    pub answer: u64,
    pub place_x: u64,
    pub place_y: u64,
    pub verdict: u64,
    pub flashes: u64,
    pub above: u64,
    pub marks: u64,
}

// The verdicts; a refusal has none of them.
pub const SOUND: u64 = 1;

pub const BAD: u64 = 2;

pub const BARE: u64 = 3;

// The verdict on a list: bad, by the line of its first bad flash; or bare, by its first bare square; or sound.
#[derive(Clone, Copy, Debug, PartialEq, Eq)]
enum Verdict {
    Bad(usize),
    Bare(Column, Row),
    Sound { above: u64, marks: u64 },
}

impl Verdict {
    // As the call tells it of a list of so many flashes.
    fn told(self, count: usize) -> Checked
        ensures { result ≡ told_of self count }
    {
        let untold = Checked {
            answer: DONE,
            place_x: 0,
            place_y: 0,
            verdict: 0,
            flashes: count as u64,
            above: 0,
            marks: 0,
        };
        match self {
            Verdict::Bad(line) => Checked {
                verdict: BAD,
                place_x: line as u64,
                ..untold
            },
            Verdict::Bare(column, row) => Checked {
                verdict: BARE,
                place_x: column.0 as u64,
                place_y: row.0 as u64,
                ..untold
            },
            Verdict::Sound { above, marks } => Checked {
                verdict: SOUND,
                above,
                marks,
                ..untold
            },
        }
    }
}

// A refusal has no verdict and no count.
impl From<Refusal> for Checked {
    ghost from_gives = { λ r c. c ≡ (refused_at (answer_of r) []).outcome };

    fn from(refusal: Refusal) -> Checked
        ensures { result ≡ (refused_at (answer_of refusal) []).outcome }
    {
        let answer = refusal.answer();
        Checked {
            answer: answer.number,
            place_x: answer.x,
            place_y: answer.y,
            verdict: 0,
            flashes: 0,
            above: 0,
            marks: 0,
        }
    }
}

// The checks of the list, 16 and 17, and how many flashes it has.
#[tactic(auto, using(crate::proofs::Onward::count_fits), unfolding(grid::specs::Answers::first_refusal, grid::specs::Answers::or_else, crate::specs::FlashList::line_not_ruled))]
fn list_checked(list: &[u8]) -> Result<usize, Refusal>
    ensures value { answered result ≡ first_refusal (list_checks list.now) }
    ensures count { IfOk result (λ n. n ≡ length (flashes_of list.now)) }
{
    let lines = count_lines(list);
    check(
        lines.end == list.len(),
        Refusal::BadListLine(lines.count + 1),
    )?;
    check(lines.count <= limits::LIST_LIMIT, Refusal::ListLong)?;
    Ok(lines.count)
}

// A sound list of so many flashes: how many it has above the least, and our marks.
fn weigh(raster: Raster, count: usize, mark_room: &mut [u8]) -> Verdict
    requires unbroken { Unbroken (area_in raster.size raster.bytes.now) }
    requires enough { (length (Flashes.flashes (area_in raster.size raster.bytes.now) raster.size.width raster.size.height) ≤ count) × (mark_room_size ≤ length mark_room.old) }
    ensures { given_of result count mark_room.new ≡ sound_with (area_in raster.entry.size raster.entry.bytes.now) raster.entry.size.width raster.entry.size.height count mark_room.old }
{
    let mut flash_room = [0u8; limits::FLASH_ROOM];
    let least = cover_area::<Swept>(raster, limits::ALLOWANCE_LIMIT, &mut flash_room, mark_room);
    Verdict::Sound {
        above: count as u64 - least.flashes,
        marks: least.marks,
    }
}

// The verdict on what has passed every check.
fn judge(raster: Raster, list: &[u8], count: usize, mark_room: &mut [u8]) -> Verdict
    requires unbroken { Unbroken (area_in raster.size raster.bytes.now) }
    requires count_value { (count ≡ length (flashes_of list.now)) × (mark_room_size ≤ length mark_room.old) }
    ensures { given_of result count mark_room.new ≡ judged (area_in raster.entry.size raster.entry.bytes.now) raster.entry.size.width raster.entry.size.height (flashes_of list.now) mark_room.old }
{
    if let Some(line) = bad_line(raster, list) {
        return Verdict::Bad(line);
    }
    if let Some((column, row)) = bare_square(raster, list) {
        return Verdict::Bare(column, row);
    }
    weigh(raster, count, mark_room)
}

// The job is checked as for the cover, which finds its flash room here; then the list; then the list is judged.
fn check_list(
    width: u64,
    height: u64,
    allowance: u64,
    raster: &[u8],
    list: &[u8],
    mark_room: &mut [u8],
) -> Result<Checked, Refusal>
    ensures { Gives width height allowance raster.now list.now mark_room.old (checked_of result) mark_room.new }
{
    let raster = sizes_checked(
        width,
        height,
        allowance,
        raster,
        limits::FLASH_ROOM,
        mark_room.len(),
    )?;
    raster_checked(raster)?;
    let count = list_checked(list)?;
    Ok(judge(raster, list, count, mark_room).told(count))
}

pub fn keekaboor_check(
    width: u64,
    height: u64,
    allowance: u64,
    raster: &[u8],
    list: &[u8],
    mark_room: &mut [u8],
) -> Checked
    ensures { Gives width height allowance raster.now list.now mark_room.old result mark_room.new }
{
    match check_list(width, height, allowance, raster, list, mark_room) {
        Ok(checked) => checked,
        Err(refusal) => refusal.into(),
    }
}
