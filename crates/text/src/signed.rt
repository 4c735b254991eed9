// Signed numbers in decimal, printed and read. The distance from 0 is a u64: that of -2^63 is no i64.
ghost use Rattle.std.specs.Prelude.{◌≡◌, ◌+◌, ◌≤◌, length};
ghost use Rattle.grid.specs.Rooms.{Written};
ghost use Rattle.text.specs.Signed.{signed, signed_at};

use crate::glyphs::MINUS;
use crate::read::{read_byte, read_number};
use crate::write::{print_number, put_byte};

pub fn print_signed(room: &mut [u8], spot: usize, value: i64) -> usize
    requires { spot + length (signed value) ≤ length room.old }
    ensures { Written room.old spot (signed value) result room.new }
{
    let at = if value < 0 {
        put_byte(room, spot, MINUS)
    } else {
        spot
    };
    print_number(room, at, value.unsigned_abs())
}

// At most the limit away from 0. No minus stands before 0.
pub fn read_signed(text: &[u8], spot: usize, limit: u64) -> Option<(i64, usize)>
    ensures { result ≡ signed_at text.now spot limit }
{
    match read_byte(text, spot, MINUS) {
        Some(at) => {
            let (away, next) = read_number(text, at, limit)?;
            if away == 0 {
                return None;
            }
            Some((0i64.checked_sub_unsigned(away)?, next))
        }
        None => {
            let (value, next) = read_number(text, spot, limit)?;
            Some((i64::try_from(value).ok()?, next))
        }
    }
}
