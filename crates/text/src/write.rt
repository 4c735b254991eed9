// Writing at a spot of a lent room. Each leaf answers the spot past what it wrote; no other byte changes.
ghost use Rattle.std.specs.Prelude.{◌≡◌, [], ◌∷◌, map, ◌+◌, ◌≤◌, ◌<◌, length};
ghost use Rattle.text.specs.Words.{chosen, glyph, square};
ghost use Rattle.grid.specs.Rooms.{Written};
ghost use Rattle.text.specs.Decimal.{decimal, field, last_digits};

use crate::glyphs::{COPPER, NONE, TAB, ZERO};
use grid::limits::SIDE;

pub fn put_byte(room: &mut [u8], spot: usize, byte: u8) -> usize
    requires { spot < length room.old }
    ensures { Written room.old spot (byte ∷ []) result room.new }
{
    room[spot] = byte;
    spot + 1
}

fn chosen_of(key: u8, hit: u8, miss: u8, byte: u8) -> u8
    ensures { result ≡ chosen key hit miss byte }
{
    if byte == key { hit } else { miss }
}

// For each byte one of two others.
fn put_chosen(room: &mut [u8], spot: usize, bytes: &[u8], key: u8, hit: u8, miss: u8) -> usize
    requires { spot + length bytes.now ≤ length room.old }
    ensures { Written room.old spot (map (chosen key hit miss) bytes.now) result room.new }
{
    for (k, byte) in bytes.iter().enumerate() {
        room[spot + k] = chosen_of(key, hit, miss, *byte);
    }
    spot + bytes.len()
}

// The squares of a row as characters.
pub fn put_body(room: &mut [u8], spot: usize, row: &[u8]) -> usize
    requires { spot + length row.now ≤ length room.old }
    ensures { Written room.old spot (map glyph row.now) result room.new }
{
    put_chosen(room, spot, row, 1, COPPER, NONE)
}

// The characters of a row as squares.
pub fn put_squares(room: &mut [u8], spot: usize, body: &[u8]) -> usize
    requires { spot + length body.now ≤ length room.old }
    ensures { Written room.old spot (map square body.now) result room.new }
{
    put_chosen(room, spot, body, COPPER, 1, 0)
}

// The most digits of a byte, of a number of 64 bits, and of a count up to the greatest width.
pub const BYTE_DIGITS: usize = 3;

pub const NUMBER_DIGITS: usize = 20;

pub const SIDE_DIGITS: usize = 1
    + (SIDE >= 10) as usize
    + (SIDE >= 100) as usize
    + (SIDE >= 1000) as usize;

// How many digits a number has. Below 100 no logarithm is asked for, and a number that LLVM sees to have two digits is printed without a loop.
pub fn digit_count(value: u64) -> usize
    ensures value { result ≡ length (decimal value) }
    ensures most { result ≤ 20 }
{
    if value < 100 {
        1 + usize::from(10 <= value)
    } else {
        value.ilog10() as usize + 1
    }
}

// The last digits of a number, as many as count.
pub fn put_digits(room: &mut [u8], spot: usize, count: usize, value: u64) -> usize
    requires { spot + count ≤ length room.old }
    ensures { Written room.old spot (last_digits count value) result room.new }
{
    let mut rest = value;
    for k in (0..count).rev() {
        room[spot + k] = ZERO + (rest % 10) as u8;
        rest /= 10;
    }
    spot + count
}

pub fn print_number(room: &mut [u8], spot: usize, value: u64) -> usize
    requires { spot + length (decimal value) ≤ length room.old }
    ensures { Written room.old spot (decimal value) result room.new }
{
    put_digits(room, spot, digit_count(value), value)
}

// A tab and a number.
pub fn put_field(room: &mut [u8], spot: usize, value: u64) -> usize
    requires { spot + length (field value) ≤ length room.old }
    ensures { Written room.old spot (field value) result room.new }
{
    let at = put_byte(room, spot, TAB);
    print_number(room, at, value)
}
