// The answer to a text: it is read, then covered, then printed.
ghost use Rattle.std.specs.Prelude.{◌≤◌, length};
ghost use Rattle.grid.specs.Rooms.{Written};
ghost use Rattle.printed.specs.Printed.{print_room};
ghost use Rattle.flashlist.specs.Program.{cover_text, Answers};

use cover::entry::keekaboor_cover;
use grid::answers::{Answer, DONE};
use grid::limits::{FLASH_ROOM, MARK_ROOM, RASTER_ROOM};
use job::read::keekaboor_read_job;
use printed::outcome::{print_outcome, print_refusal};

fn print_cover(width: u64, height: u64, allowance: u64, raster: &[u8], out: &mut [u8]) -> usize
    requires { print_room ≤ length out.old }
    ensures { Written out.old 0 (cover_text width height allowance raster.now) result out.new }
{
    let mut flash_room = [0u8; FLASH_ROOM];
    let mut mark_room = [0u8; MARK_ROOM];
    let outcome = keekaboor_cover(
        width,
        height,
        allowance,
        raster,
        &mut flash_room,
        &mut mark_room,
    );
    print_outcome(outcome, &flash_room, &mark_room, out)
}

pub fn answer(text: &[u8], out: &mut [u8]) -> usize
    requires { print_room ≤ length out.old }
    ensures { Answers text.now out.old result out.new }
{
    let mut room = [0u8; RASTER_ROOM];
    let read = keekaboor_read_job(text, &mut room);
    if read.answer != DONE {
        let refusal = Answer {
            number: read.answer,
            x: read.place_x,
            y: read.place_y,
        };
        return print_refusal(refusal, out);
    }
    let size = (read.width * read.height) as usize;
    print_cover(read.width, read.height, read.allowance, &room[..size], out)
}
