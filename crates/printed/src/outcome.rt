// The cover program's printed form of an outcome.
ghost use Rattle.std.specs.Prelude.{◌≤◌, length};
ghost use Rattle.grid.specs.Rooms.{Written};
ghost use Rattle.printed.specs.Printed.{print_room, refusal_line, Printable, Prints};

use cover::entry::Outcome;
use grid::answers::{ALLOWANCE_SHORT, Answer, DONE};
use grid::limits::{FLASH_RECORD, MARK_RECORD, SIDE};
use text::line::{put_line, put_record_lines};
use text::write::{BYTE_DIGITS, NUMBER_DIGITS, SIDE_DIGITS};

// The longest line of each kind: its word, a tab and the most digits for each field, and the line feed.
const COVER_LINE_ROOM: usize = 5 + (1 + SIDE_DIGITS) + 2 * (1 + NUMBER_DIGITS) + 1;

const FLASH_LINE_ROOM: usize = 5 + FLASH_RECORD * (1 + BYTE_DIGITS) + 1;

const MARK_LINE_ROOM: usize = 4 + MARK_RECORD * (1 + BYTE_DIGITS) + 1;

// The longest print.
pub const PRINT_ROOM: usize = COVER_LINE_ROOM + SIDE * FLASH_LINE_ROOM + SIDE * MARK_LINE_ROOM;

// A refusal: its number and the two place numbers.
#[tactic(auto, using(crate::proofs::Longest::three_most))]
pub fn print_refusal(refusal: Answer, out: &mut [u8]) -> usize
    requires { print_room ≤ length out.old }
    ensures { Written out.old 0 (refusal_line refusal) result out.new }
{
    put_line(out, 0, b"refused", &[refusal.number, refusal.x, refusal.y])
}

// Behind a refusal stand its marks where the allowance was short, and nothing else.
pub fn print_outcome(outcome: Outcome, flash_room: &[u8], mark_room: &[u8], out: &mut [u8]) -> usize
    requires { Printable outcome flash_room.now mark_room.now out.old }
    ensures { Prints outcome flash_room.now mark_room.now out.old result out.new }
{
    let covered = [outcome.flashes, outcome.copper, outcome.flashed];
    let refusal = Answer {
        number: outcome.answer,
        x: outcome.place_x,
        y: outcome.place_y,
    };
    let flashes = outcome.flashes as usize;
    let marks = outcome.marks as usize;
    match outcome.answer {
        DONE => {
            let at = put_line(out, 0, b"cover", &covered);
            let at = put_record_lines(out, at, b"flash", flash_room, FLASH_RECORD, flashes);
            put_record_lines(out, at, b"mark", mark_room, MARK_RECORD, marks)
        }
        ALLOWANCE_SHORT => {
            let at = print_refusal(refusal, out);
            put_record_lines(out, at, b"mark", mark_room, MARK_RECORD, marks)
        }
        _ => print_refusal(refusal, out),
    }
}
