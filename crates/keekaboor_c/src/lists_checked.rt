// The check of a list from outside.
ghost use Rattle.listcheck.specs.Checked.{Gives};

use listcheck::entry::Checked;

#[unsafe(no_mangle)]
pub extern "C" fn keekaboor_check(
    width: u64,
    height: u64,
    allowance: u64,
    raster: &[u8],
    list: &[u8],
    mark_room: &mut [u8],
) -> Checked
    ensures { Gives width height allowance raster.now list.now mark_room.old result mark_room.new }
{
    listcheck::entry::keekaboor_check(width, height, allowance, raster, list, mark_room)
}
