// The Gerber program: a job from standard input written as a Gerber file, or a Gerber file read back, to standard output.
// Its words are the task, `write` or `read`, the version, the pitch, and the origin's two numbers.
#![tactic(auto)]

ghost use Rattle.std.specs.Prelude.{◌≤◌};

mod answer;
mod call;
mod print;

use answer::answer;
use grid::limits::FILE_ROOM;
use input::read_full;
use std::env::Env;
use std::io;

// No number of 64 bits has as many characters; a word that is longer is none.
const WORD_ROOM: usize = 32;

// The longest job and the longest file that can be as ruled are shorter, so a longer text is refused by what is read of it.
const READ_ROOM: usize = FILE_ROOM;

// A word of the call: the front of its room.
#[derive(Drop)]
struct Word {
    room: [u8; WORD_ROOM],
    length: usize,
    ghost inside: { length ≤ 32 },
}

impl Word {
    // Empty where the word is missing or longer than the room.
    fn nth(rt: &impl Env, number: usize) -> Word {
        let mut room = [0u8; WORD_ROOM];
        let length = rt.arg(number, &mut room).unwrap_or(0);
        Word { room, length }
    }

    fn bytes(&self) -> &[u8] {
        &self.room[..self.length]
    }
}

fn main(rt: HostRuntime) -> io::Result<()> {
    let task = Word::nth(&rt, 1);
    let version = Word::nth(&rt, 2);
    let pitch = Word::nth(&rt, 3);
    let x = Word::nth(&rt, 4);
    let y = Word::nth(&rt, 5);
    let mut text = [0u8; READ_ROOM];
    let length = read_full(&mut rt.stdin(), &mut text)?;
    let mut out = [0u8; FILE_ROOM];
    let printed = answer(
        task.bytes(),
        version.bytes(),
        pitch.bytes(),
        x.bytes(),
        y.bytes(),
        &text[..length],
        &mut out,
    );
    rt.write_all(&out[..printed])
}
