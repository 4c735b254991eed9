// A job's text, both ways.
ghost use Rattle.job.specs.Reading.{ReadJob};
ghost use Rattle.job.specs.Writing.{WriteJob};

use job::read::ReadOutcome;
use job::write::WriteOutcome;

#[unsafe(no_mangle)]
pub extern "C" fn keekaboor_read_job(text: &[u8], raster_room: &mut [u8]) -> ReadOutcome
    ensures { ReadJob text.now raster_room.old result raster_room.new }
{
    job::read::keekaboor_read_job(text, raster_room)
}

#[unsafe(no_mangle)]
pub extern "C" fn keekaboor_write_job(
    width: u64,
    height: u64,
    allowance: u64,
    raster: &[u8],
    text_room: &mut [u8],
) -> WriteOutcome
    ensures { WriteJob width height allowance raster.now text_room.old result text_room.new }
{
    job::write::keekaboor_write_job(width, height, allowance, raster, text_room)
}
