// The cover program: a job from standard input, its cover or its refusal to standard output.
#![tactic(auto)]

mod answer;

use answer::answer;
use input::read_full;
use job::room::TEXT_ROOM;
use printed::outcome::PRINT_ROOM;
use std::io;

// One byte more than the longest job tells a longer text, so the program ends on endless input too.
const READ_ROOM: usize = TEXT_ROOM + 1;

#[tactic(auto, unfolding(text::specs::Decimal::decimal, text::specs::Decimal::digits))]
fn main(rt: HostRuntime) -> io::Result<()> {
    let mut text = [0u8; READ_ROOM];
    let length = read_full(&mut rt.stdin(), &mut text)?;
    let mut out = [0u8; PRINT_ROOM];
    let printed = answer(&text[..length], &mut out);
    rt.write_all(&out[..printed])
}
