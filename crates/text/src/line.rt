// A line: a word and its numbers, printed and read.
ghost use Rattle.std.specs.Prelude.{◌≡◌, ℕ, ◌+◌, ◌*◌, ◌≤◌, length, map};
ghost use Rattle.grid.specs.Rooms.{Written};
ghost use Rattle.text.specs.Line.{line, record_lines, ReadLine};
ghost use Rattle.text.specs.Steps.{FieldsRead, LineTried};

use crate::glyphs::FEED;
use crate::read::{read_byte, read_field, read_word};
use crate::write::{put_byte, put_field};
use grid::rooms::put_bytes;

// What a field shows: a number, or a record's byte.
trait Number: Copy {
    ghost value: { Self → ℕ };

    fn value(self) -> u64
        ensures { result ≡ value self };
}

impl Number for u64 {
    ghost value = { λ n. n };

    fn value(self) -> u64 {
        self
    }
}

impl Number for u8 {
    ghost value = { λ b. b };

    fn value(self) -> u64 {
        u64::from(self)
    }
}

fn put_numbers<T: Number>(room: &mut [u8], spot: usize, word: &[u8], numbers: &[T]) -> usize
    requires { spot + length (line word.now (map T.value numbers.now)) ≤ length room.old }
    ensures { Written room.old spot (line word.now (map T.value numbers.now)) result room.new }
{
    let mut at = put_bytes(room, spot, word);
    for number in numbers {
        at = put_field(room, at, number.value());
    }
    put_byte(room, at, FEED)
}

pub fn put_line(room: &mut [u8], spot: usize, word: &[u8], numbers: &[u64]) -> usize
    requires { spot + length (line word.now numbers.now) ≤ length room.old }
    ensures { Written room.old spot (line word.now numbers.now) result room.new }
{
    put_numbers(room, spot, word, numbers)
}

// The numbers are a record's bytes.
pub fn put_record_line(room: &mut [u8], spot: usize, word: &[u8], bytes: &[u8]) -> usize
    requires { spot + length (line word.now bytes.now) ≤ length room.old }
    ensures { Written room.old spot (line word.now bytes.now) result room.new }
{
    put_numbers(room, spot, word, bytes)
}

// A line for each record of a size.
pub fn put_record_lines(
    room: &mut [u8],
    spot: usize,
    word: &[u8],
    records: &[u8],
    size: usize,
    count: usize,
) -> usize
    requires { (count * size ≤ length records.now) × (spot + length (record_lines word.now size count records.now) ≤ length room.old) }
    ensures { Written room.old spot (record_lines word.now size count records.now) result room.new }
{
    let mut at = spot;
    for k in 0..count {
        let from = k * size;
        at = put_record_line(room, at, word, &records[from..from + size]);
    }
    at
}

// A field for each of the lent numbers.
fn read_fields(text: &[u8], spot: usize, limit: u64, numbers: &mut [u64]) -> Option<usize>
    ensures { FieldsRead text.now spot limit numbers.old result numbers.new }
{
    let mut at = spot;
    for number in numbers.iter_mut() {
        let (value, next) = read_field(text, at, limit)?;
        *number = value;
        at = next;
    }
    Some(at)
}

// Where no such line stands there, some numbers may have been changed.
fn try_line(text: &[u8], spot: usize, word: &[u8], limit: u64, numbers: &mut [u64]) -> Option<usize>
    ensures { LineTried text.now spot word.now limit numbers.old result numbers.new }
{
    let first = read_word(text, spot, word)?;
    let end = read_fields(text, first, limit, numbers)?;
    read_byte(text, end, FEED)
}

// The word, as many numbers as are lent, each at most the limit, and the line feed. Where no such line stands there, the numbers are 0.
// Not inlined, so that a caller's loop over many lines doesn't carry the numbers of each through all its digits.
#[inline(never)]
pub fn read_line(
    text: &[u8],
    spot: usize,
    word: &[u8],
    limit: u64,
    numbers: &mut [u64],
) -> Option<usize>
    ensures { ReadLine text.now spot word.now limit numbers.old result numbers.new }
{
    let next = try_line(text, spot, word, limit, numbers);
    if next.is_none() {
        numbers.fill(0);
    }
    next
}
