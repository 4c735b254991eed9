// The answer to a job and a list: the job is read, the list is checked, what the check gave is printed.
ghost use Rattle.std.specs.Prelude.{◌≤◌, length};
ghost use Rattle.grid.specs.Rooms.{Written};
ghost use Rattle.printed.specs.Printed.{print_room};
ghost use Rattle.checklist.specs.Program.{check_text, program_text};

use crate::print::print_checked;
use grid::answers::{Answer, DONE};
use grid::limits::{MARK_ROOM, RASTER_ROOM};
use job::read::keekaboor_read_job;
use listcheck::entry::keekaboor_check;
use printed::outcome::print_refusal;

fn print_check(
    width: u64,
    height: u64,
    allowance: u64,
    raster: &[u8],
    list: &[u8],
    out: &mut [u8],
) -> usize
    requires { print_room ≤ length out.old }
    ensures { Written out.old 0 (check_text width height allowance raster.now list.now) result out.new }
{
    let mut mark_room = [0u8; MARK_ROOM];
    let checked = keekaboor_check(width, height, allowance, raster, list, &mut mark_room);
    print_checked(checked, &mark_room, out)
}

pub fn answer(text: &[u8], list: &[u8], out: &mut [u8]) -> usize
    requires { print_room ≤ length out.old }
    ensures { Written out.old 0 (program_text text.now list.now) result out.new }
{
    let mut room = [0u8; RASTER_ROOM];
    let read = keekaboor_read_job(text, &mut room);
    if read.answer != DONE {
        let refusal = Answer {
            number: read.answer,
            x: read.place_x,
            y: read.place_y,
        };
        return print_refusal(refusal, out);
    }
    let size = (read.width * read.height) as usize;
    print_check(
        read.width,
        read.height,
        read.allowance,
        &room[..size],
        list,
        out,
    )
}
