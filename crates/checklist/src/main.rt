// The check program: a job and a list, each from the file that an argument names, the verdict or the refusal to standard output.
#![tactic(auto)]

ghost use Rattle.std.specs.Prelude.{◌≤◌, length, IfOk};

mod answer;
mod print;

use answer::answer;
use input::read_full;
use job::room::TEXT_ROOM;
use printed::outcome::PRINT_ROOM;
use std::env::Env;
use std::rt::Files;
use std::{fs, io, str};

// One byte more than the longest job tells a longer text.
const JOB_ROOM: usize = TEXT_ROOM + 1;

// The longest list has 26,624 bytes: what lies beyond this room could only turn a refusal for too many flashes into one for a line.
const LIST_ROOM: usize = 65536;

// One byte more than the longest path that the system takes.
const PATH_ROOM: usize = 4096;

// What the file that an argument names begins with, as much as the room holds; nothing where it cannot be opened, which standard error tells.
fn read_named(rt: &(impl Env + Eprint + Files), number: usize, room: &mut [u8]) -> io::Result<usize>
    ensures { IfOk result (λ n. n ≤ length room.new) }
{
    let mut path_room = [0u8; PATH_ROOM];
    let Ok(length) = rt.arg(number, &mut path_room) else {
        let _ = eprintln!(rt; "argument {number}: missing or too long");
        return Ok(0);
    };
    let Ok(path) = str::from_utf8(&path_room[..length]) else {
        let _ = eprintln!(rt; "argument {number}: not UTF-8");
        return Ok(0);
    };
    match fs::open(rt, path) {
        Ok(mut file) => read_full(&mut file, room),
        Err(error) => {
            let _ = eprintln!(rt; "{path}: {error}");
            Ok(0)
        }
    }
}

#[tactic(auto, unfolding(text::specs::Decimal::decimal, text::specs::Decimal::digits))]
fn main(rt: HostRuntime) -> io::Result<()> {
    let mut text = [0u8; JOB_ROOM];
    let length = read_named(&rt, 1, &mut text)?;
    let mut list = [0u8; LIST_ROOM];
    let listed = read_named(&rt, 2, &mut list)?;
    let mut out = [0u8; PRINT_ROOM];
    let printed = answer(&text[..length], &list[..listed], &mut out);
    rt.write_all(&out[..printed])
}
