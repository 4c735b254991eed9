// Writing a job: checks in document 01's order, then the one text of the job.
ghost use Rattle.std.specs.Prelude.{◌≡◌, ◌+◌, ◌≤◌, length, IfOk};
ghost use Rattle.grid.specs.Answers.{answer_of, answered};
ghost use Rattle.grid.specs.Rooms.{Written};
ghost use Rattle.job.specs.JobText.{row_line, row_lines, job_text};
ghost use Rattle.job.specs.Writing.{not_written, checked, WriteJob};

use crate::room::TEXT_ROOM;
use grid::answers::{DONE, Refusal, check};
use grid::limits::ALLOWANCE_LIMIT;
use grid::lines::Row;
use grid::raster::Raster;
use grid::rooms::put_bytes;
use text::glyphs::{FEED, TAB};
use text::line::put_line;
use text::write::{put_body, put_byte, put_field};

#[repr(C)]
#[derive(Clone, Copy)]
pub struct WriteOutcome {
    pub answer: u64,
    pub place_x: u64,
    pub place_y: u64,
    pub length: u64,
}

impl From<Refusal> for WriteOutcome {
    ghost from_gives = { λ r o. o ≡ not_written (answer_of r) };

    fn from(refusal: Refusal) -> WriteOutcome {
        let answer = refusal.answer();
        WriteOutcome {
            answer: answer.number,
            place_x: answer.x,
            place_y: answer.y,
            length: 0,
        }
    }
}

// The checks in their order: 1, 2, 5, 6, 7.
#[tactic(auto, using(crate::proofs::Lengths::most), unfolding(crate::specs::Writing::checked, grid::specs::Answers::first_refusal, grid::specs::Answers::or_else))]
fn checked<'a>(
    width: u64,
    height: u64,
    allowance: u64,
    bytes: &'a [u8],
    room: usize,
) -> Result<Raster<'a>, Refusal>
    ensures value { answered result ≡ checked width height allowance bytes.now room }
    ensures raster { IfOk result (λ r. (r.size.width ≡ width) × (r.size.height ≡ height) × (r.bytes ≡ bytes.entry)) }
{
    let raster = Raster::checked(width, height, bytes)?;
    check(TEXT_ROOM <= room, Refusal::TextRoomShort)?;
    check(allowance <= ALLOWANCE_LIMIT as u64, Refusal::AllowanceOut)?;
    match raster.bad_byte() {
        Some((column, row)) => Err(Refusal::BadByte(column, row)),
        None => Ok(raster),
    }
}

fn put_row(room: &mut [u8], spot: usize, row: Row, squares: &[u8]) -> usize
    requires { spot + length (row_line row.0 squares.now) ≤ length room.old }
    ensures { Written room.old spot (row_line row.0 squares.now) result room.new }
{
    let first = put_bytes(room, spot, b"row");
    let second = put_field(room, first, row.0 as u64);
    let body = put_byte(room, second, TAB);
    let end = put_body(room, body, squares);
    put_byte(room, end, FEED)
}

// One line for each row from the top row down.
fn put_rows(room: &mut [u8], spot: usize, raster: Raster) -> usize
    requires { spot + length (row_lines raster.size.width raster.bytes.now raster.size.height) ≤ length room.old }
    ensures { Written room.old spot (row_lines raster.entry.size.width raster.entry.bytes.now raster.entry.size.height) result room.new }
{
    let width = raster.size.width;
    let mut at = spot;
    for row in (0..raster.size.height).rev() {
        let from = row * width;
        at = put_row(room, at, Row(row), &raster.bytes[from..from + width]);
    }
    at
}

fn put_text(room: &mut [u8], raster: Raster, allowance: u64) -> usize
    requires { length (job_text raster.size.width raster.size.height allowance raster.bytes.now) ≤ length room.old }
    ensures { Written room.old 0 (job_text raster.entry.size.width raster.entry.size.height allowance raster.entry.bytes.now) result room.new }
{
    let size = raster.size;
    let numbers = [size.width as u64, size.height as u64, allowance];
    let next = put_line(room, 0, b"shape", &numbers);
    put_rows(room, next, raster)
}

pub fn keekaboor_write_job(
    width: u64,
    height: u64,
    allowance: u64,
    raster: &[u8],
    text_room: &mut [u8],
) -> WriteOutcome
    ensures { WriteJob width height allowance raster.now text_room.old result text_room.new }
{
    match checked(width, height, allowance, raster, text_room.len()) {
        Ok(raster) => WriteOutcome {
            answer: DONE,
            place_x: 0,
            place_y: 0,
            length: put_text(text_room, raster, allowance) as u64,
        },
        Err(refusal) => refusal.into(),
    }
}
