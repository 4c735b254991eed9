// The lines of a job's text: `shape` with its numbers, and one line for each row.
ghost use Rattle.std.specs.Prelude.{◌≡◌, ◌∷◌, [], length, leb, IfOk};
ghost use Rattle.grid.specs.Limits.{allowance_limit};
ghost use Rattle.grid.specs.Raster.{size_fits};
ghost use Rattle.grid.specs.Answers.{answered, first_refusal, check, size_out, allowance_out};
ghost use Rattle.job.specs.JobText.{row_head};
ghost use Rattle.job.specs.Reading.{shape_at, job_of, row_at, rows_from};

use grid::answers::{Refusal, check};
use grid::limits::ALLOWANCE_LIMIT;
use grid::lines::Row;
use grid::raster::{Job, Size, size_fits};
use text::glyphs::{FEED, TAB};
use text::line::read_line;
use text::read::{read_body, read_byte, read_field, read_word};
use text::write::digit_count;

// A number in line 1 is at most this.
pub const NUMBER_LIMIT: u64 = 9999;

// What line 1 says.
#[derive(Clone, Copy, Debug, PartialEq, Eq)]
pub struct Shape {
    pub width: u64,
    pub height: u64,
    pub allowance: u64,
}

impl Shape {
    // The checks 1 and 6.
    #[tactic(auto, unfolding(grid::specs::Answers::first_refusal, grid::specs::Answers::or_else))]
    pub(crate) fn job(self) -> Result<Job, Refusal>
        ensures value { answered result ≡ first_refusal (check (size_fits self.width self.height) size_out ∷ check (leb self.allowance allowance_limit) allowance_out ∷ []) }
        ensures job { IfOk result (λ j. j ≡ job_of self) }
    {
        check(size_fits(self.width, self.height), Refusal::SizeOut)?;
        check(
            self.allowance <= ALLOWANCE_LIMIT as u64,
            Refusal::AllowanceOut,
        )?;
        let size = Size {
            width: self.width as usize,
            height: self.height as usize,
        };
        Ok(Job {
            size,
            allowance: self.allowance as usize,
        })
    }
}

// Line 1, and the spot past it.
pub fn read_shape(text: &[u8], spot: usize) -> Option<(Shape, usize)>
    ensures { result ≡ shape_at text.now spot }
{
    let mut numbers = [0u64; 3];
    let next = read_line(text, spot, b"shape", NUMBER_LIMIT, &mut numbers)?;
    let [width, height, allowance] = numbers;
    Some((
        Shape {
            width,
            height,
            allowance,
        },
        next,
    ))
}

// The line of a row. Its number is at most the one that is asked for, or the line is not as ruled.
pub fn read_row(text: &[u8], spot: usize, width: usize, row: Row) -> Option<usize>
    ensures { result ≡ row_at text.now spot width row.0 }
{
    let wanted = row.0 as u64;
    let first = read_word(text, spot, b"row")?;
    let (number, second) = read_field(text, first, wanted)?;
    if number != wanted {
        return None;
    }
    let body = read_byte(text, second, TAB)?;
    let end = read_body(text, body, width)?;
    read_byte(text, end, FEED)
}

// The lines of all rows, from the top row down: the first that is not as ruled is refused.
pub fn judge_rows(text: &[u8], spot: usize, size: Size) -> Result<(), Refusal>
    ensures { result ≡ rows_from text.now size.width size.height 2 spot }
{
    let mut line = 2;
    let mut at = spot;
    for row in (0..size.height).rev() {
        at = read_row(text, at, size.width, Row(row)).ok_or(Refusal::BadLine(line))?;
        line += 1;
    }
    check(at == text.len(), Refusal::BadLine(line))
}

// How many bytes stand before a row's squares: the word, two tabs and the row's number.
pub fn row_head(row: Row) -> usize
    ensures { result ≡ length (row_head row.0) }
{
    b"row".len() + 2 + digit_count(row.0 as u64)
}
