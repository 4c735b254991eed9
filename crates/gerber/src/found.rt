// What may stand at a spot of a file is few: each is printed as it would be written, and compared. So nothing is read that is not written so.
ghost use Rattle.std.specs.Prelude.{◌≡◌, ℕ, ◌++◌, ◌+◌, ◌*◌, ◌<◌, ◌≤◌, length};
ghost use Rattle.grid.specs.Limits.{side};
ghost use Rattle.text.specs.Decimal.{decimal};
ghost use Rattle.text.specs.Signed.{signed};
ghost use Rattle.text.specs.Words.{word_at, found};
ghost use Rattle.gerber.specs.File.{centre, millimetres};
ghost use Rattle.gerber.specs.Parts.{FirstFound, square_at, found_side, found_square};

use crate::centres::{Axis, Plane};
use crate::lines::put_millimetres;
use grid::limits::LINES;
use text::read::read_word;
use text::signed::print_signed;
use text::write::{NUMBER_DIGITS, print_number};

// Two digits of millimetres at most, the point, and six more.
const SIDE_ROOM: usize = 9;

// A sign and ten digits.
const COORDINATE_ROOM: usize = 11;

// What is printed so, and what closes it.
fn piece_at(text: &[u8], spot: usize, piece: &[u8], close: &[u8]) -> Option<usize>
    ensures { result ≡ word_at text.now spot (piece.now ++ close.now) }
{
    read_word(text, read_word(text, spot, piece)?, close)
}

#[tactic(auto, using(crate::proofs::Compared::number_fits))]
pub fn number_at(text: &[u8], spot: usize, number: u64, close: &[u8]) -> Option<usize>
    ensures { result ≡ word_at text.now spot (decimal number ++ close.now) }
{
    let mut room = [0u8; NUMBER_DIGITS];
    let end = print_number(&mut room, 0, number);
    piece_at(text, spot, &room[..end], close)
}

// A length in nanometres.
#[tactic(auto, using(crate::proofs::Compared::length_fits))]
fn length_at(text: &[u8], spot: usize, value: u64, close: &[u8]) -> Option<usize>
    requires { value ≤ side * 1000000 }
    ensures { result ≡ word_at text.now spot (millimetres value ++ close.now) }
{
    let mut room = [0u8; SIDE_ROOM];
    let end = put_millimetres(&mut room, 0, value);
    piece_at(text, spot, &room[..end], close)
}

// The first of the numbers that is found, and the spot past it.
pub(crate) fn find_first<F: Fn(usize) -> Option<usize>>(
    start: usize,
    end: usize,
    at: F,
) -> Option<(usize, usize)>
    requires { (n : ℕ) → start ≤ n → n < end → F.pre at n }
    ensures { FirstFound (F.post at) start end result }
{
    for n in start..end {
        if let Some(next) = at(n) {
            return Some((n, next));
        }
    }
    None
}

// How many squares the length at the spot is, and the spot past what closes it.
pub fn find_side(text: &[u8], spot: usize, plane: Plane, close: &[u8]) -> Option<(usize, usize)>
    ensures { result ≡ found_side text.now spot plane.pitch close.now }
{
    find_first(1, LINES, |n| {
        length_at(text, spot, n as u64 * plane.pitch, close)
    })
}

// The centre of the squares a to b along one axis.
fn centre_at(
    text: &[u8],
    spot: usize,
    axis: Axis,
    a: usize,
    b: usize,
    close: &[u8],
) -> Option<usize>
    requires { (a ≤ b) × (b < side) }
    ensures { result ≡ found (square_at text.now spot (centre axis.pitch axis.origin a b) close.now) (spot + length (signed (centre axis.pitch axis.origin a b) ++ close.now)) }
{
    if !axis.coordinate_fits(a, b) {
        return None;
    }
    let mut room = [0u8; COORDINATE_ROOM];
    let end = print_signed(&mut room, 0, axis.centre(a, b));
    piece_at(text, spot, &room[..end], close)
}

// The first square of a side of so many squares, along one axis, whose centre is the coordinate at the spot.
pub fn find_square(
    text: &[u8],
    spot: usize,
    axis: Axis,
    size: usize,
    close: &[u8],
) -> Option<(usize, usize)>
    requires { (1 ≤ size) × (size ≤ side) }
    ensures { result ≡ found_square text.now spot axis.pitch axis.origin size close.now }
{
    find_first(0, LINES - size, |a| {
        centre_at(text, spot, axis, a, a + size - 1, close)
    })
}
