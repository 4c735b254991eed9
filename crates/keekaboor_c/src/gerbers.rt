// Gerber files, both ways.
ghost use Rattle.gerber.specs.Reading.{ReadsGerber};
ghost use Rattle.gerber.specs.Writing.{WritesGerber};

use gerber::read::ReadOutcome;
use gerber::write::WriteOutcome;

#[unsafe(no_mangle)]
pub extern "C" fn keekaboor_write_gerber(
    width: u64,
    height: u64,
    allowance: u64,
    raster: &[u8],
    flash_room: &mut [u8],
    mark_room: &mut [u8],
    version: u64,
    pitch: u64,
    x: i64,
    y: i64,
    file_room: &mut [u8],
) -> WriteOutcome
    ensures { WritesGerber width height allowance raster.now version pitch x y flash_room.old mark_room.old file_room.old result flash_room.new mark_room.new file_room.new }
{
    gerber::write::keekaboor_write_gerber(
        width, height, allowance, raster, flash_room, mark_room, version, pitch, x, y, file_room,
    )
}

#[unsafe(no_mangle)]
pub extern "C" fn keekaboor_read_gerber(
    text: &[u8],
    version: u64,
    pitch: u64,
    x: i64,
    y: i64,
    flash_room: &mut [u8],
) -> ReadOutcome
    ensures { ReadsGerber version pitch x y text.now flash_room.old result flash_room.new }
{
    gerber::read::keekaboor_read_gerber(text, version, pitch, x, y, flash_room)
}
