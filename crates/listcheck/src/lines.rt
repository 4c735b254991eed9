// The lines of a list, one after the other. The text is read again for each question, so that no room is needed for the flashes.
ghost use Rattle.std.specs.Prelude.{◌≡◌};
ghost use Rattle.std.specs.Iterator.{YieldsFirstBy, item_count};
ghost use Rattle.cover.specs.Code.{rectangle_of};
ghost use Rattle.listcheck.specs.FlashList.{flash_line_at, flash_said, flashes_at, flashes_of};
ghost use Rattle.listcheck.specs.Code.{said_of, lines_of};

use cover::flashes::Flash;
use grid::limits::FLASH_RECORD;
use grid::lines::{Column, Row};
use job::lines::NUMBER_LIMIT;
use text::line::read_line;

// How many lines are as ruled, from the first on, and the spot where they end.
#[derive(Clone, Copy, Debug, PartialEq, Eq)]
pub struct Lines {
    pub count: usize,
    pub end: usize,
}

// The flashes that the lines of a text say from a spot on, up to the first line that is not as ruled.
#[derive(Clone, Copy)]
pub(crate) struct Flashes<'a> {
    text: &'a [u8],
    spot: usize,
}

impl<'a> Iterator for Flashes<'a> {
    type Item = Flash;

    ghost next_gives = { YieldsFirstBy rectangle_of (λ s. flashes_at s.text.now s.spot) };

    ghost remaining = { item_count (λ s. flashes_at s.text.now s.spot) };

    fn next(&mut self) -> Option<Flash> {
        let (flash, next) = read_flash(self.text, self.spot)?;
        self.spot = next;
        Some(flash)
    }
}

impl<'a> Flashes<'a> {
    #[tactic(auto, unfolding(crate::specs::FlashList::flashes_of))]
    pub(crate) fn of(text: &'a [u8]) -> Flashes<'a>
        ensures { flashes_at result.text.now result.spot ≡ flashes_of text.now }
    {
        Flashes { text, spot: 0 }
    }
}

// The flash of the line at a spot, and the spot past the line.
pub fn read_flash(text: &[u8], spot: usize) -> Option<(Flash, usize)>
    ensures { result ≡ said_of (flash_line_at text.now spot) (flash_said text.now spot) }
{
    let mut numbers = [0u64; FLASH_RECORD];
    let next = read_line(text, spot, b"flash", NUMBER_LIMIT, &mut numbers)?;
    let [first, last, bottom, top] = numbers;
    let flash = Flash {
        first: Column(first as usize),
        last: Column(last as usize),
        bottom: Row(bottom as usize),
        top: Row(top as usize),
    };
    Some((flash, next))
}

pub fn count_lines(text: &[u8]) -> Lines
    ensures { result ≡ lines_of text.now }
{
    let mut lines = Lines { count: 0, end: 0 };
    while let Some((_, next)) = read_flash(text, lines.end) {
        lines.count += 1;
        lines.end = next;
    }
    lines
}
