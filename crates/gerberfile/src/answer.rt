// The answer to a call: its words are read, and then a job is written as a file, or a file is read back.
ghost use Rattle.std.specs.Prelude.{◌≤◌, length};
ghost use Rattle.grid.specs.Limits.{file_room_size};
ghost use Rattle.grid.specs.Rooms.{Written};
ghost use Rattle.text.specs.Words.{word_at};
ghost use Rattle.gerber.specs.File.{bytes};
ghost use Rattle.gerberfile.specs.Program.{job_text, task_text, program_text};

use crate::call::{Call, asked};
use crate::print::{print_file, print_read, print_wrong};
use grid::answers::{Answer, DONE};
use grid::limits::RASTER_ROOM;
use job::read::keekaboor_read_job;
use printed::outcome::print_refusal;
use text::read::read_word;

fn print_job(text: &[u8], call: Call, out: &mut [u8]) -> usize
    requires { file_room_size ≤ length out.old }
    ensures { Written out.old 0 (job_text text.now call.version call.pitch call.x call.y) result out.new }
{
    let mut room = [0u8; RASTER_ROOM];
    let read = keekaboor_read_job(text, &mut room);
    if read.answer != DONE {
        let refusal = Answer {
            number: read.answer,
            x: read.place_x,
            y: read.place_y,
        };
        return print_refusal(refusal, out);
    }
    let size = (read.width * read.height) as usize;
    print_file(
        read.width,
        read.height,
        read.allowance,
        &room[..size],
        call,
        out,
    )
}

// The task `read` reads a file back.
fn perform(task: &[u8], text: &[u8], call: Call, out: &mut [u8]) -> usize
    requires { file_room_size ≤ length out.old }
    ensures { Written out.old 0 (task_text (word_at task.now 0 (bytes "read")) text.now call.version call.pitch call.x call.y) result out.new }
{
    match read_word(task, 0, b"read") {
        Some(_) => print_read(text, call, out),
        None => print_job(text, call, out),
    }
}

pub fn answer(
    task: &[u8],
    version: &[u8],
    pitch: &[u8],
    x: &[u8],
    y: &[u8],
    text: &[u8],
    out: &mut [u8],
) -> usize
    requires { file_room_size ≤ length out.old }
    ensures { Written out.old 0 (program_text task.now version.now pitch.now x.now y.now text.now) result out.new }
{
    match asked(version, pitch, x, y) {
        Ok(call) => perform(task, text, call, out),
        Err(word) => print_wrong(word.number(), out),
    }
}
