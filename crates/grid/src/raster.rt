// A raster of a size within the limits, and the checks of it: its size, its bytes, its columns.
ghost use Rattle.std.specs.Prelude.{◌≡◌, ◌∷◌, [], ◌-◌, length, IfOk, nat_lt};
ghost use Rattle.std.specs.List.{position};
ghost use Rattle.lists.specs.Lists as List;
ghost use Rattle.lists.specs.Lists.{first};
ghost use Rattle.grid.specs.Answers.{answered, first_refusal, check, size_out, raster_length};
ghost use Rattle.grid.specs.Raster.{side_fits, size_fits, length_fits, first_bad, bad_square, gap, broken_square};
ghost use Rattle.grid.specs.Code.{Sized, area_in, place_of, level_of, as_asked};

use crate::answers;
use crate::answers::Refusal;
use crate::limits::SIDE;
use crate::lines::{Column, Row};

#[derive(Clone, Copy, Debug, PartialEq, Eq)]
pub struct Size {
    pub width: usize,
    pub height: usize,
}

// The numbers of a job, inside the program.
#[derive(Clone, Copy, Debug, PartialEq, Eq)]
pub struct Job {
    pub size: Size,
    pub allowance: usize,
}

// The squares row by row from the lowest, each row from column 0: 1 is copper, 0 is none.
#[derive(Clone, Copy)]
pub struct Raster<'a> {
    pub size: Size,
    pub bytes: &'a [u8],
    pub ghost sized: { Sized size bytes.now },
}

fn side_fits(n: u64) -> bool
    ensures { result ≡ side_fits n }
{
    (1..=SIDE as u64).contains(&n)
}

pub fn size_fits(width: u64, height: u64) -> bool
    ensures { result ≡ size_fits width height }
{
    side_fits(width) && side_fits(height)
}

// A product that no number holds is no length.
pub fn length_fits(width: u64, height: u64, length: u64) -> bool
    ensures { result ≡ length_fits width height length }
{
    width.checked_mul(height) == Some(length)
}

// The index of the first byte that is not 0 or 1.
fn first_bad(bytes: &[u8]) -> Option<usize>
    ensures { result ≡ position (nat_lt 1) bytes.now }
{
    bytes.iter().position(|byte| 1 < *byte)
}

impl<'a> Raster<'a> {
    // The checks 1 and 2.
    #[tactic(auto, unfolding(crate::specs::Answers::first_refusal, crate::specs::Answers::or_else))]
    pub fn checked(width: u64, height: u64, bytes: &'a [u8]) -> Result<Raster<'a>, Refusal>
        ensures value { answered result ≡ first_refusal (check (size_fits width height) size_out ∷ check (length_fits width height (length bytes.now)) raster_length ∷ []) }
        ensures raster { IfOk result (λ r. (r.size.width ≡ width) × (r.size.height ≡ height) × (r.bytes ≡ bytes.entry)) }
    {
        answers::check(size_fits(width, height), Refusal::SizeOut)?;
        answers::check(
            length_fits(width, height, bytes.len() as u64),
            Refusal::RasterLength,
        )?;
        let size = Size {
            width: width as usize,
            height: height as usize,
        };
        Ok(Raster { size, bytes })
    }

    pub fn bad_byte(self) -> Option<(Column, Row)>
        ensures { result ≡ place_of (bad_square self.entry.size.width self.entry.bytes.now) }
    {
        let i = first_bad(self.bytes)?;
        let w = self.size.width;
        Some((Column(i % w), Row(i / w)))
    }

    pub fn is_copper(self, column: Column, row: Row) -> bool
        ensures { result ≡ area_in self.entry.size self.entry.bytes.now column.0 row.0 }
    {
        let w = self.size.width;
        let c = column.0;
        let r = row.0;
        c < w && r < self.size.height && self.bytes[r * w + c] == 1
    }

    // The lowest row from `from` on whose square in the column is copper, or is not, as asked.
    fn next_row(self, column: Column, from: Row, copper: bool) -> Option<Row>
        ensures { result ≡ level_of (first (λ k. as_asked copper (area_in self.entry.size self.entry.bytes.now column.0 k)) (List.from «from».0 (self.entry.size.height - «from».0))) }
    {
        (from.0..self.size.height)
            .find(|r| self.is_copper(column, Row(*r)) == copper)
            .map(Row)
    }

    // The lowest empty square of the column with copper below and above.
    fn gap_row(self, column: Column) -> Option<Row>
        ensures { result ≡ level_of (gap (area_in self.entry.size self.entry.bytes.now) self.entry.size.height column.0) }
    {
        let bottom = self.next_row(column, Row(0), true)?;
        let edge = self.next_row(column, bottom, false)?;
        self.next_row(column, edge, true)?;
        Some(edge)
    }

    pub fn broken(self) -> Option<(Column, Row)>
        ensures { result ≡ place_of (broken_square (area_in self.entry.size self.entry.bytes.now) self.entry.size.width self.entry.size.height) }
    {
        (0..self.size.width).find_map(|c| self.gap_row(Column(c)).map(|gap| (Column(c), gap)))
    }
}
