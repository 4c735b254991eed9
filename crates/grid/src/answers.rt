// Document 01's answers: a refusal has its number and its place, and a check is a `?`.
ghost use Rattle.std.specs.Prelude.{◌≡◌, cond, Ok, Err};
ghost use Rattle.grid.specs.Answers.{answer_of};

use crate::lines::{Column, Row};

// An answer by number with its place, as C's structs carry it; 0 is done.
#[derive(Clone, Copy, Debug, PartialEq, Eq)]
pub struct Answer {
    pub number: u64,
    pub x: u64,
    pub y: u64,
}

pub const DONE: u64 = 0;

pub const ALLOWANCE_SHORT: u64 = 9;

// Why a call is refused, and where, if a place is named: a square, or a line of a text.
#[derive(Clone, Copy, Debug, PartialEq, Eq)]
pub enum Refusal {
    SizeOut,
    RasterLength,
    FlashRoomShort,
    MarkRoomShort,
    TextRoomShort,
    AllowanceOut,
    BadByte(Column, Row),
    BrokenColumn(Column, Row),
    AllowanceShort,
    TextLong,
    BadLine(usize),
    RasterRoomShort,
    PitchOut,
    CentreOut,
    FileRoomShort,
    BadListLine(usize),
    ListLong,
    VersionUnknown,
    BadFileLine(usize),
}

impl Refusal {
    pub fn answer(self) -> Answer
        ensures { result ≡ answer_of self }
    {
        let (number, x, y) = match self {
            Refusal::SizeOut => (1, 0, 0),
            Refusal::RasterLength => (2, 0, 0),
            Refusal::FlashRoomShort => (3, 0, 0),
            Refusal::MarkRoomShort => (4, 0, 0),
            Refusal::TextRoomShort => (5, 0, 0),
            Refusal::AllowanceOut => (6, 0, 0),
            Refusal::BadByte(c, r) => (7, c.0, r.0),
            Refusal::BrokenColumn(c, r) => (8, c.0, r.0),
            Refusal::AllowanceShort => (ALLOWANCE_SHORT, 0, 0),
            Refusal::TextLong => (10, 0, 0),
            Refusal::BadLine(line) => (11, line, 0),
            Refusal::RasterRoomShort => (12, 0, 0),
            Refusal::PitchOut => (13, 0, 0),
            Refusal::CentreOut => (14, 0, 0),
            Refusal::FileRoomShort => (15, 0, 0),
            Refusal::BadListLine(line) => (16, line, 0),
            Refusal::ListLong => (17, 0, 0),
            Refusal::VersionUnknown => (21, 0, 0),
            Refusal::BadFileLine(line) => (30, line, 0),
        };
        Answer {
            number,
            x: x as u64,
            y: y as u64,
        }
    }
}

impl From<Refusal> for Answer {
    ghost from_gives = { λ r a. a ≡ answer_of r };

    fn from(refusal: Refusal) -> Answer
        ensures { result ≡ answer_of refusal }
    {
        refusal.answer()
    }
}

// A check for a `?`: passed, or the refusal.
pub fn check(passed: bool, refusal: Refusal) -> Result<(), Refusal>
    ensures { result ≡ cond passed (Ok tt) (Err refusal) }
{
    if passed { Ok(()) } else { Err(refusal) }
}
