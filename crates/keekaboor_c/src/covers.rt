// The cover, by either search.
ghost use Rattle.cover.specs.Cover.{Gives};

use cover::entry::Outcome;

#[unsafe(no_mangle)]
pub extern "C" fn keekaboor_cover(
    width: u64,
    height: u64,
    allowance: u64,
    raster: &[u8],
    flash_room: &mut [u8],
    mark_room: &mut [u8],
) -> Outcome
    ensures { Gives width height allowance raster.now flash_room.old mark_room.old result flash_room.new mark_room.new }
{
    cover::entry::keekaboor_cover(width, height, allowance, raster, flash_room, mark_room)
}

#[unsafe(no_mangle)]
pub extern "C" fn keekaboor_cover_plain(
    width: u64,
    height: u64,
    allowance: u64,
    raster: &[u8],
    flash_room: &mut [u8],
    mark_room: &mut [u8],
) -> Outcome
    ensures { Gives width height allowance raster.now flash_room.old mark_room.old result flash_room.new mark_room.new }
{
    cover::entry::keekaboor_cover_plain(width, height, allowance, raster, flash_room, mark_room)
}
