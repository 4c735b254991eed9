// Reading a job: everything is judged before a byte is written.
ghost use Rattle.std.specs.Prelude.{◌≡◌, Ok, Err};
ghost use Rattle.grid.specs.Answers.{answer_of};
ghost use Rattle.grid.specs.Rooms.{written};
ghost use Rattle.job.specs.Reading.{raster_from, judged_lines, judged, told, read_outcome, Copies, ReadJob};

use crate::lines::row_head;
use crate::reader::{rows_of, shape_of};
use crate::room::TEXT_ROOM;
use grid::answers::{DONE, Refusal, check};
use grid::limits::RASTER_ROOM;
use grid::lines::Row;
use grid::raster::{Job, Size};
use text::write::put_squares;

#[repr(C)]
#[derive(Clone, Copy)]
pub struct ReadOutcome {
    pub answer: u64,
    pub place_x: u64,
    pub place_y: u64,
    pub width: u64,
    pub height: u64,
    pub allowance: u64,
}

impl From<Refusal> for ReadOutcome {
    ghost from_gives = { λ r o. o ≡ read_outcome (Err (answer_of r)) };

    fn from(refusal: Refusal) -> ReadOutcome {
        let answer = refusal.answer();
        ReadOutcome {
            answer: answer.number,
            place_x: answer.x,
            place_y: answer.y,
            width: 0,
            height: 0,
            allowance: 0,
        }
    }
}

impl From<Job> for ReadOutcome {
    ghost from_gives = { λ j o. o ≡ read_outcome (Ok (j, 0)) };

    fn from(job: Job) -> ReadOutcome {
        ReadOutcome {
            answer: DONE,
            place_x: 0,
            place_y: 0,
            width: job.size.width as u64,
            height: job.size.height as u64,
            allowance: job.allowance as u64,
        }
    }
}

// The lines of a text, through the reader that holds it: the job, and the spot past line 1.
#[tactic(auto, unfolding(crate::specs::Reading::judged_lines, grid::specs::Answers::first_refusal, grid::specs::Answers::or_else))]
fn judge_lines(text: &[u8]) -> Result<(Job, usize), Refusal>
    ensures { told result ≡ judged_lines text.now }
{
    let (shape, next) = shape_of(text).ok_or(Refusal::BadLine(1))?;
    let job = shape.job()?;
    rows_of(text, next, job.size)?;
    Ok((job, next))
}

#[tactic(auto, using(crate::proofs::Lengths::most), unfolding(crate::specs::Reading::judged, crate::specs::Reading::judged_lines, grid::specs::Answers::first_refusal, grid::specs::Answers::or_else))]
fn judge(text: &[u8], room: usize) -> Result<(Job, usize), Refusal>
    ensures { told result ≡ judged text.now room }
{
    check(RASTER_ROOM <= room, Refusal::RasterRoomShort)?;
    check(text.len() <= TEXT_ROOM, Refusal::TextLong)?;
    judge_lines(text)
}

// The squares of the rows' lines as raster bytes, from the top row down.
fn copy_rows(text: &[u8], spot: usize, size: Size, room: &mut [u8])
    requires { Copies text.now spot size room.old }
    ensures { room.new ≡ written room.old 0 (raster_from text.now size.width size.height spot) }
{
    let width = size.width;
    let mut at = spot;
    for row in (0..size.height).rev() {
        let body = at + row_head(Row(row));
        put_squares(room, row * width, &text[body..body + width]);
        at = body + width + 1;
    }
}

pub fn keekaboor_read_job(text: &[u8], raster_room: &mut [u8]) -> ReadOutcome
    ensures { ReadJob text.now raster_room.old result raster_room.new }
{
    match judge(text, raster_room.len()) {
        Ok((job, spot)) => {
            copy_rows(text, spot, job.size, raster_room);
            job.into()
        }
        Err(refusal) => refusal.into(),
    }
}
