// What a call gave, printed: a file, the flashes of one, a refusal with its marks, or which word is no number.
ghost use Rattle.std.specs.Prelude.{◌*◌, ◌≤◌, length};
ghost use Rattle.grid.specs.Limits.{side, flash_record, file_room_size};
ghost use Rattle.grid.specs.Rooms.{Written};
ghost use Rattle.gerberfile.specs.Program.{wrong_text, file_text, read_back_text, read_text};

use crate::call::Call;
use cover::entry::Outcome;
use gerber::read::{ReadOutcome, keekaboor_read_gerber};
use gerber::write::keekaboor_write_gerber;
use grid::answers::{Answer, DONE};
use grid::limits::{FILE_ROOM, FLASH_RECORD, FLASH_ROOM, MARK_ROOM};
use grid::rooms::put_bytes;
use printed::outcome::{print_outcome, print_refusal};
use text::line::{put_line, put_record_lines};

pub fn print_wrong(word: u64, out: &mut [u8]) -> usize
    requires { file_room_size ≤ length out.old }
    ensures { Written out.old 0 (wrong_text word) result out.new }
{
    put_line(out, 0, b"wrong", &[word])
}

// The file; or the refusal, with its marks behind 9.
pub fn print_file(
    width: u64,
    height: u64,
    allowance: u64,
    raster: &[u8],
    call: Call,
    out: &mut [u8],
) -> usize
    requires { file_room_size ≤ length out.old }
    ensures { Written out.old 0 (file_text width height allowance raster.now call.version call.pitch call.x call.y) result out.new }
{
    let mut flash_room = [0u8; FLASH_ROOM];
    let mut mark_room = [0u8; MARK_ROOM];
    let mut file_room = [0u8; FILE_ROOM];
    let o = keekaboor_write_gerber(
        width,
        height,
        allowance,
        raster,
        &mut flash_room,
        &mut mark_room,
        call.version,
        call.pitch,
        call.x,
        call.y,
        &mut file_room,
    );
    if o.answer != DONE {
        let refused = Outcome {
            answer: o.answer,
            place_x: o.place_x,
            place_y: o.place_y,
            flashes: 0,
            marks: o.marks,
            copper: 0,
            flashed: 0,
        };
        return print_outcome(refused, &[], &mark_room, out);
    }
    put_bytes(out, 0, &file_room[..o.length as usize])
}

// A file's flashes in its order.
fn print_flashes(o: ReadOutcome, records: &[u8], out: &mut [u8]) -> usize
    requires { (o.flashes ≤ side) × (o.flashes * flash_record ≤ length records.now) × (file_room_size ≤ length out.old) }
    ensures { Written out.old 0 (read_back_text o records.now) result out.new }
{
    if o.answer != DONE {
        let refusal = Answer {
            number: o.answer,
            x: o.place_x,
            y: o.place_y,
        };
        return print_refusal(refusal, out);
    }
    put_record_lines(out, 0, b"flash", records, FLASH_RECORD, o.flashes as usize)
}

pub fn print_read(text: &[u8], call: Call, out: &mut [u8]) -> usize
    requires { file_room_size ≤ length out.old }
    ensures { Written out.old 0 (read_text text.now call.version call.pitch call.x call.y) result out.new }
{
    let mut flash_room = [0u8; FLASH_ROOM];
    let o = keekaboor_read_gerber(
        text,
        call.version,
        call.pitch,
        call.x,
        call.y,
        &mut flash_room,
    );
    print_flashes(o, &flash_room, out)
}
