// A copper area by its columns: a column's copper goes from its bottom to before its end.
ghost use Rattle.cover.specs.Code.{Sheeted};

use columns::checks::columns_checked;
use grid::answers::Refusal;
use grid::limits::SIDE;
use grid::raster::{Raster, Size};

// Each column's bottom and end, whoever holds them.
#[derive(Clone, Copy)]
pub struct Edges<'a> {
    pub bottoms: &'a [u8],
    pub ends: &'a [u8],
}

#[derive(Clone, Copy)]
pub struct Sheet {
    pub size: Size,
    pub bottoms: [u8; SIDE],
    pub ends: [u8; SIDE],
    pub ghost sheeted: { Sheeted size.width size.height bottoms ends },
}

impl Sheet {
    ghost use Rattle.std.specs.Prelude.{◌≡◌, IfOk};
    ghost use Rattle.grid.specs.Answers.{answered, first_refusal};
    ghost use Rattle.grid.specs.Squares.{Unbroken};
    ghost use Rattle.grid.specs.Code.{area_in};
    ghost use Rattle.columns.specs.Columns.{raster_checks};
    ghost use Rattle.cover.specs.Sheets.{SheetOf, Blank};

    // Of an area that is known to be unbroken, whatever other bytes the raster has.
    pub fn of(raster: Raster) -> Sheet
        requires { Unbroken (area_in raster.size raster.bytes.now) }
        ensures { SheetOf raster.entry.size raster.entry.bytes.now result }
    {
        let mut bottoms = [0u8; SIDE];
        let mut ends = [0u8; SIDE];
        let _ = columns_checked(raster, &mut bottoms, &mut ends);
        Sheet {
            size: raster.size,
            bottoms,
            ends,
        }
    }

    // The checks 7 and 8 on the way.
    pub fn checked(raster: Raster) -> Result<Sheet, Refusal>
        ensures value { answered result ≡ first_refusal (raster_checks raster.entry.size.width raster.entry.size.height raster.entry.bytes.now) }
        ensures sheet { IfOk result (λ s. SheetOf raster.entry.size raster.entry.bytes.now s) }
    {
        let mut sheet = Sheet::blank();
        sheet.fill(raster)?;
        Ok(sheet)
    }

    // Of no column, to be filled.
    pub(crate) fn blank() -> Sheet
        ensures { Blank result }
    {
        Sheet {
            size: Size {
                width: 0,
                height: 0,
            },
            bottoms: [0u8; SIDE],
            ends: [0u8; SIDE],
        }
    }

    // The same where the sheet lies, since it is too large to be handed over by value in every cover. On a refusal it stays one of no column.
    pub(crate) fn fill(&mut self, raster: Raster) -> Result<(), Refusal>
        requires { Blank self.old }
        ensures value { answered result ≡ first_refusal (raster_checks raster.entry.size.width raster.entry.size.height raster.entry.bytes.now) }
        ensures sheet { IfOk result (λ u. SheetOf raster.entry.size raster.entry.bytes.now self.new) }
    {
        columns_checked(raster, &mut self.bottoms, &mut self.ends)?;
        self.size = raster.size;
        Ok(())
    }
}
