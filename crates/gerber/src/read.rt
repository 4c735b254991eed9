// Reading a file back: checks, then the head, the apertures and the flashes, held back in a room of their own; then the lent room is written.
ghost use Rattle.std.specs.Prelude.{◌≡◌, [], ◌*◌, ◌<◌, ◌≤◌, length};
ghost use Rattle.grid.specs.Limits.{side, flash_record, flash_room_size};
ghost use Rattle.grid.specs.Answers.{answer_of};
ghost use Rattle.grid.specs.Rooms.{written};
ghost use Rattle.text.specs.Words.{word_at};
ghost use Rattle.cover.specs.Code.{rectangle_of, Drawn};
ghost use Rattle.cover.specs.Records.{flash_bytes};
ghost use Rattle.gerber.specs.Code.{EachOnGrid};
ghost use Rattle.gerber.specs.Reading.{first_of, read_apertures, read_flashes, read_file, read_refused, ReadsGerber};
ghost use Rattle.gerber.specs.Parts.{Sound, HeadRead, ReadInto, ReadChecked};

use crate::apertures::Apertures;
use crate::centres::Plane;
use crate::turns::{BadLine, Reached, read_aperture, take_turn};
use crate::versions::format_checked;
use cover::flashes::put_flash;
use grid::answers::{Refusal, check};
use grid::limits::SIDE;
use grid::rooms::put_bytes;
use grid::{answers, limits};
use text::read::read_word;

#[repr(C)]
#[derive(Clone, Copy)]
pub struct ReadOutcome {
    pub answer: u64,
    pub place_x: u64,
    pub place_y: u64,
    pub flashes: u64,
}

// How many apertures there are, and the spot past them.
#[derive(Clone, Copy)]
pub struct Sizes {
    pub count: usize,
    pub past: usize,
}

// Under either version the first line is that of either.
fn read_first(text: &[u8]) -> Option<usize>
    ensures { result ≡ word_at text.now 0 (first_of text.now) }
{
    read_word(text, 0, b"G04 #@! TF.FileFunction,Copper,L1,Top*\n").or_else(|| read_word(
        text,
        0,
        b"%TF.FileFunction,Copper,L1,Top*%\n",
    ))
}

fn read_head(text: &[u8]) -> Result<usize, BadLine>
    ensures { HeadRead text.now result }
{
    let format = read_first(text).ok_or(BadLine(1))?;
    let unit = read_word(text, format, b"%FSLAX46Y46*%\n").ok_or(BadLine(2))?;
    read_word(text, unit, b"%MOMM*%\n").ok_or(BadLine(3))
}

const HEADS: usize = 3;

// The apertures are put into a table that is lent empty: made in place, it is never copied.
fn read_apertures(text: &[u8], spot: usize, plane: Plane, apertures: &mut Apertures) -> Sizes
    requires { apertures.old ≡ [] }
    ensures read { record { sizes = apertures.new; past = result.past } ≡ read_apertures side plane.pitch text.now (record { sizes = []; past = spot }) }
    ensures held { (result.count ≡ length apertures.new) × (result.count ≤ side) × EachOnGrid apertures.new }
{
    let mut at = spot;
    for k in 0..SIDE {
        let Some((size, next)) = read_aperture(text, at, plane, apertures) else {
            return Sizes { count: k, past: at };
        };
        apertures.push(size);
        at = next;
    }
    Sizes {
        count: SIDE,
        past: at,
    }
}

// How many flashes there are; they are put into the room.
fn read_flashes(
    text: &[u8],
    plane: Plane,
    apertures: &Apertures,
    start: Reached,
    room: &mut [u8],
) -> Result<usize, BadLine>
    requires { EachOnGrid apertures.now × Sound (length apertures.now) start × (start.line ≤ 2 * side) × (flash_room_size ≤ length room.old) }
    ensures { ReadInto (read_flashes side plane.pitch plane.x plane.y text.now apertures.now [] start) result room.new }
{
    let mut n = 0;
    let mut s = start;
    while let Some((flash, next)) = take_turn(text, plane, apertures, s)? {
        if n == SIDE {
            return Err(BadLine(next.line - 1));
        }
        put_flash(room, n, flash);
        n += 1;
        s = next;
    }
    Ok(n)
}

fn read_file(text: &[u8], plane: Plane, room: &mut [u8]) -> Result<usize, BadLine>
    requires { flash_room_size ≤ length room.old }
    ensures { ReadInto (read_file plane.pitch plane.x plane.y text.now) result room.new }
{
    let spot = read_head(text)?;
    let mut apertures = Apertures::none();
    let sizes = read_apertures(text, spot, plane, &mut apertures);
    let start = Reached {
        line: HEADS + sizes.count + 1,
        at: sizes.past,
        used: 0,
        current: None,
    };
    read_flashes(text, plane, &apertures, start, room)
}

impl From<Refusal> for ReadOutcome {
    ghost from_gives = { λ r o. o ≡ (read_refused (answer_of r) []).outcome };

    fn from(refusal: Refusal) -> ReadOutcome
        ensures { result ≡ (read_refused (answer_of refusal) []).outcome }
    {
        let answer = refusal.answer();
        ReadOutcome {
            answer: answer.number,
            place_x: answer.x,
            place_y: answer.y,
            flashes: 0,
        }
    }
}

// How many flashes there are; they are put into the lent room.
fn read_checked(
    text: &[u8],
    version: u64,
    pitch: u64,
    x: i64,
    y: i64,
    flash_room: &mut [u8],
) -> Result<usize, Refusal>
    ensures { ReadChecked version pitch x y text.now flash_room.old result flash_room.new }
{
    check(
        limits::FLASH_ROOM <= flash_room.len(),
        Refusal::FlashRoomShort,
    )?;
    let (_, plane) = format_checked(version, pitch, x, y)?;
    let mut flashes = [0u8; limits::FLASH_ROOM];
    let n = read_file(text, plane, &mut flashes)?;
    put_bytes(flash_room, 0, &flashes[..n * limits::FLASH_RECORD]);
    Ok(n)
}

pub fn keekaboor_read_gerber(
    text: &[u8],
    version: u64,
    pitch: u64,
    x: i64,
    y: i64,
    flash_room: &mut [u8],
) -> ReadOutcome
    ensures { ReadsGerber version pitch x y text.now flash_room.old result flash_room.new }
{
    match read_checked(text, version, pitch, x, y, flash_room) {
        Err(refusal) => ReadOutcome::from(refusal),
        Ok(n) => ReadOutcome {
            answer: answers::DONE,
            place_x: 0,
            place_y: 0,
            flashes: n as u64,
        },
    }
}
