// The lines of a file past its head: an aperture; a select, a flash, the end.
ghost use Rattle.std.specs.Prelude.{◌≡◌, ◌+◌, ◌<◌, ◌≤◌, ◌^◌, length};
ghost use Rattle.grid.specs.Limits.{side};
ghost use Rattle.grid.specs.declared.answers.Refusal.TheVariants.{BadFileLine};
ghost use Rattle.text.specs.Words.{found};
ghost use Rattle.gerber.specs.File.{aperture_line, centre_line, select_line, end_line};
ghost use Rattle.gerber.specs.Code.{OnGrid};
ghost use Rattle.gerber.specs.Reading.{aperture_at, select_at, may_select, placed_at, flash_at, selected, turned, end_turn, flash_turn};
ghost use Rattle.gerber.specs.Parts.{found_of, found_select, number_line, number_stands, Sound, flash_found, turn_of};

use crate::apertures::Apertures;
use crate::centres::Plane;
use crate::found::{find_first, find_side, find_square, number_at};
use crate::lines::FIRST_NUMBER;
use crate::sizes::Size;
use cover::flashes::Flash;
use grid::answers::Refusal;
use grid::limits::SIDE;
use grid::lines::{Column, Row};
use text::read::read_word;

// What the lines before have said, past the apertures: the number and the spot of the line that comes next, how many apertures
// have been used, and the current one.
#[derive(Clone, Copy)]
pub struct Reached {
    pub line: usize,
    pub at: usize,
    pub used: usize,
    pub current: Option<usize>,
}

// The number of a line that is not as ruled.
#[derive(Clone, Copy, Debug, PartialEq, Eq)]
pub struct BadLine(pub usize);

impl From<BadLine> for Refusal {
    ghost from_gives = { λ line r. r ≡ BadFileLine line.0 };

    fn from(line: BadLine) -> Refusal
        ensures { result ≡ BadFileLine line.0 }
    {
        Refusal::BadFileLine(line.0)
    }
}

// The size of the aperture line at the spot, which is the next one and not among the others.
pub fn read_aperture(
    text: &[u8],
    spot: usize,
    plane: Plane,
    apertures: &Apertures,
) -> Option<(Size, usize)>
    ensures { result ≡ found_of (aperture_at plane.pitch text.now apertures.now spot) (λ z. spot + length (aperture_line plane.pitch (length apertures.now) z)) }
{
    let sizes = apertures.sizes();
    let number = read_word(text, spot, b"%ADD")?;
    let across = number_at(text, number, FIRST_NUMBER + sizes.len() as u64, b"R,")?;
    let (wide, up) = find_side(text, across, plane, b"X")?;
    let (high, end) = find_side(text, up, plane, b"*%\n")?;
    let size = Size { wide, high };
    if sizes.contains(&size) {
        return None;
    }
    Some((size, end))
}

// A defined aperture, in order of first use, and not the current one.
fn may_select(s: Reached, k: usize) -> bool
    ensures { result ≡ may_select s k }
{
    k <= s.used && s.current != Some(k)
}

// The number of an aperture that may be selected, and the end of its line.
fn select_at(text: &[u8], spot: usize, s: Reached, k: usize) -> Option<usize>
    requires { k < side }
    ensures { result ≡ found (number_stands text.now spot s k) (spot + length (number_line k)) }
{
    if !may_select(s, k) {
        return None;
    }
    number_at(text, spot, FIRST_NUMBER + k as u64, b"*\n")
}

// The bound that is known is named in the code too: a number that is seen to be below 100 is printed by two digits, with no loop.
fn find_select(text: &[u8], spot: usize, count: usize, s: Reached) -> Option<(usize, usize)>
    requires { count ≤ side }
    ensures { result ≡ found_select text.now spot count s }
{
    find_first(0, count.min(SIDE), |k| select_at(text, spot, s, k))
}

fn read_select(text: &[u8], count: usize, s: Reached) -> Option<(usize, usize)>
    requires { count ≤ side }
    ensures { result ≡ found_of (select_at text.now count s) (λ k. s.at + length (select_line k)) }
{
    let number = read_word(text, s.at, b"D")?;
    find_select(text, number, count, s)
}

fn selected(s: Reached, k: usize, next: usize) -> Reached
    requires { (s.line < 2 ^ 32) × (k < side) × (next ≡ s.at + length (select_line k)) }
    ensures { result ≡ selected s k }
{
    Reached {
        line: s.line + 1,
        at: next,
        used: s.used.max(k + 1),
        current: Some(k),
    }
}

// A flash of the size.
fn read_flash(text: &[u8], plane: Plane, size: Size, spot: usize) -> Option<(Flash, usize)>
    requires { OnGrid size }
    ensures { result ≡ flash_found (placed_at plane.pitch plane.x plane.y text.now size spot) (λ q. spot + length (centre_line plane.pitch plane.x plane.y q)) }
{
    let across = read_word(text, spot, b"X")?;
    let (column, up) = find_square(text, across, plane.across(), size.wide, b"Y")?;
    let (row, end) = find_square(text, up, plane.upward(), size.high, b"D03*\n")?;
    let flash = Flash {
        first: Column(column),
        last: Column(column + size.wide - 1),
        bottom: Row(row),
        top: Row(row + size.high - 1),
    };
    Some((flash, end))
}

// A flash of the current aperture.
fn flash_turn(
    text: &[u8],
    plane: Plane,
    apertures: &Apertures,
    s: Reached,
) -> Result<Option<(Flash, Reached)>, BadLine>
    requires { Sound (length apertures.now) s }
    ensures { result ≡ turn_of (flash_turn plane.pitch plane.x plane.y s (flash_at plane.pitch plane.x plane.y text.now apertures.now s)) }
{
    let current = s.current.ok_or(BadLine(s.line))?;
    let size = apertures.sizes()[current];
    let (flash, at) = read_flash(text, plane, size, s.at).ok_or(BadLine(s.line))?;
    let next = Reached {
        line: s.line + 1,
        at,
        ..s
    };
    Ok(Some((flash, next)))
}

fn end_turn(
    text: &[u8],
    count: usize,
    s: Reached,
    end: usize,
) -> Result<Option<(Flash, Reached)>, BadLine>
    requires { (s.line < 2 ^ 32) × (end ≡ s.at + length end_line) }
    ensures { result ≡ turn_of (end_turn text.now count s) }
{
    if s.used != count {
        return Err(BadLine(s.line));
    }
    if end != text.len() {
        return Err(BadLine(s.line + 1));
    }
    Ok(None)
}

// A flash, with a select before it or not; or none at the end.
pub fn take_turn(
    text: &[u8],
    plane: Plane,
    apertures: &Apertures,
    s: Reached,
) -> Result<Option<(Flash, Reached)>, BadLine>
    requires { Sound (length apertures.now) s × (s.line + 1 < 2 ^ 32) }
    ensures { result ≡ turn_of (turned plane.pitch plane.x plane.y text.now apertures.now s) }
{
    let count = apertures.sizes().len();
    if let Some((k, next)) = read_select(text, count, s) {
        return flash_turn(text, plane, apertures, selected(s, k, next));
    }
    if let Some(end) = read_word(text, s.at, b"M02*\n") {
        return end_turn(text, count, s, end);
    }
    flash_turn(text, plane, apertures, s)
}
