// Writing a file: all that the cover does, held back in rooms of its own; then the file's own checks; then the rooms are written.
ghost use Rattle.std.specs.Prelude.{◌≡◌, ◌&&◌, leb, IfOk};
ghost use Rattle.grid.specs.Limits.{flash_room_size, mark_room_size};
ghost use Rattle.grid.specs.Answers.{first_refusal, answer_of, answered};
ghost use Rattle.cover.specs.Code.{outcome_of};
ghost use Rattle.cover.specs.Records.{flashes_in};
ghost use Rattle.gerber.specs.Format.{number_of};
ghost use Rattle.gerber.specs.Writing.{file_checks, with_length, WritesGerber};

use crate::centres::Plane;
use crate::flashes::Flashes;
use crate::lines::put_file;
use crate::versions::{Version, format_checked};
use cover::entry::{Outcome, keekaboor_cover};
use grid::answers::{Refusal, check};
use grid::rooms::put_bytes;
use grid::{answers, limits};

#[repr(C)]
#[derive(Clone, Copy)]
pub struct WriteOutcome {
    pub answer: u64,
    pub place_x: u64,
    pub place_y: u64,
    pub flashes: u64,
    pub marks: u64,
    pub copper: u64,
    pub flashed: u64,
    pub length: u64,
}

// The cover's numbers and the file's length.
fn with_length(o: Outcome, length: usize) -> WriteOutcome
    ensures { result ≡ with_length o length }
{
    WriteOutcome {
        answer: o.answer,
        place_x: o.place_x,
        place_y: o.place_y,
        flashes: o.flashes,
        marks: o.marks,
        copper: o.copper,
        flashed: o.flashed,
        length: length as u64,
    }
}

impl From<Refusal> for WriteOutcome {
    ghost from_gives = { λ r o. o ≡ with_length (outcome_of (answer_of r)) 0 };

    fn from(refusal: Refusal) -> WriteOutcome
        ensures { result ≡ with_length (outcome_of (answer_of refusal)) 0 }
    {
        with_length(Outcome::from(refusal), 0)
    }
}

fn rooms_fit(flash_room: usize, mark_room: usize) -> bool
    ensures { result ≡ (leb flash_room_size flash_room && leb mark_room_size mark_room) }
{
    limits::FLASH_ROOM <= flash_room && limits::MARK_ROOM <= mark_room
}

// 21, 13, 14, 15.
fn file_checked(
    version: u64,
    pitch: u64,
    x: i64,
    y: i64,
    flashes: Flashes,
    file_room: usize,
) -> Result<(Version, Plane), Refusal>
    ensures value { answered result ≡ first_refusal (file_checks version pitch x y (flashes_in flashes.entry.count flashes.entry.records.now) file_room) }
    ensures format { IfOk result (λ f. (number_of f.0 ≡ version) × (f.1.pitch ≡ pitch) × (f.1.x ≡ x) × (f.1.y ≡ y)) }
{
    let (version, plane) = format_checked(version, pitch, x, y)?;
    check(plane.centres_fit(flashes), Refusal::CentreOut)?;
    check(limits::FILE_ROOM <= file_room, Refusal::FileRoomShort)?;
    Ok((version, plane))
}

pub fn keekaboor_write_gerber(
    width: u64,
    height: u64,
    allowance: u64,
    raster: &[u8],
    flash_room: &mut [u8],
    mark_room: &mut [u8],
    version: u64,
    pitch: u64,
    x: i64,
    y: i64,
    file_room: &mut [u8],
) -> WriteOutcome
    ensures { WritesGerber width height allowance raster.now version pitch x y flash_room.old mark_room.old file_room.old result flash_room.new mark_room.new file_room.new }
{
    // a short room is the cover's refusal: it writes nothing
    if !rooms_fit(flash_room.len(), mark_room.len()) {
        let short = keekaboor_cover(width, height, allowance, raster, flash_room, mark_room);
        return with_length(short, 0);
    }
    let mut flashes = [0u8; limits::FLASH_ROOM];
    let mut marks = [0u8; limits::MARK_ROOM];
    let covered = keekaboor_cover(width, height, allowance, raster, &mut flashes, &mut marks);
    let mark_end = covered.marks as usize * limits::MARK_RECORD;
    if covered.answer != answers::DONE {
        put_bytes(mark_room, 0, &marks[..mark_end]);
        return with_length(covered, 0);
    }
    let count = covered.flashes as usize;
    let listed = Flashes {
        records: &flashes,
        count,
    };
    match file_checked(version, pitch, x, y, listed, file_room.len()) {
        Err(refusal) => WriteOutcome::from(refusal),
        Ok((_, plane)) => {
            let length = put_file(file_room, version, plane, listed);
            put_bytes(flash_room, 0, &flashes[..count * limits::FLASH_RECORD]);
            put_bytes(mark_room, 0, &marks[..mark_end]);
            with_length(covered, length)
        }
    }
}
