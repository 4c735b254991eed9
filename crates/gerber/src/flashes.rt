// The flashes that a cover gave, as its records hold them.
ghost use Rattle.std.specs.Prelude.{◌≡◌, ◌+◌, ◌*◌, ◌<◌, ◌≤◌, length};
ghost use Rattle.grid.specs.Limits.{flash_record};
ghost use Rattle.cover.specs.Code.{rectangle_of, Drawn};
ghost use Rattle.cover.specs.Records.{flash_in};
ghost use Rattle.gerber.specs.Code.{FlashesHeld};

use cover::flashes::Flash;
use grid::limits::FLASH_RECORD;
use grid::lines::{Column, Row};

// The k-th flash of a list of records.
pub fn flash_at(records: &[u8], k: usize) -> Flash
    requires { k * flash_record + flash_record ≤ length records.now }
    ensures { rectangle_of result ≡ flash_in records.now k }
{
    let at = k * FLASH_RECORD;
    Flash {
        first: Column(records[at] as usize),
        last: Column(records[at + 1] as usize),
        bottom: Row(records[at + 2] as usize),
        top: Row(records[at + 3] as usize),
    }
}

#[derive(Clone, Copy)]
pub struct Flashes<'a> {
    pub records: &'a [u8],
    pub count: usize,
    ghost held: { FlashesHeld count records.now },
}

impl Flashes<'_> {
    pub fn at(self, k: usize) -> Flash
        requires { k < self.count }
        ensures is { rectangle_of result ≡ flash_in self.entry.records.now k }
        ensures drawn { Drawn (rectangle_of result) }
    {
        flash_at(self.records, k)
    }
}
