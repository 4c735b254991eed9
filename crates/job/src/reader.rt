// The reader of a job: the text it was lent and the spot it has reached. Each of its functions makes it, moves it, or takes it apart and leaves
// the work to a function on text and spot; the two functions below it take a plain text, and whoever calls these knows nothing of a reader.
ghost use Rattle.std.specs.Prelude.{◌≡◌};
ghost use Rattle.job.specs.Reader.{holding};
ghost use Rattle.job.specs.Reading.{shape_at, rows_from};

use crate::lines::{Shape, judge_rows, read_shape};
use grid::answers::Refusal;
use grid::raster::Size;

#[derive(Clone, Copy)]
pub struct Reader<'a> {
    pub text: &'a [u8],
    pub spot: usize,
}

impl<'a> Reader<'a> {
    pub fn new(text: &'a [u8]) -> Reader<'a>
        ensures { result ≡ holding text.entry 0 }
    {
        Reader { text, spot: 0 }
    }

    // The same text, at the spot that was reached.
    pub fn moved(self, spot: usize) -> Reader<'a>
        ensures { result ≡ holding self.entry.text spot }
    {
        Reader {
            text: self.text,
            spot,
        }
    }

    // Line 1, at its spot.
    pub fn shape(self) -> Option<(Shape, usize)>
        ensures { result ≡ shape_at self.entry.text.now self.entry.spot }
    {
        read_shape(self.text, self.spot)
    }

    // The lines of the rows, from its spot on.
    pub fn rows(self, size: Size) -> Result<(), Refusal>
        ensures { result ≡ rows_from self.entry.text.now size.width size.height 2 self.entry.spot }
    {
        judge_rows(self.text, self.spot, size)
    }
}

// Line 1 of a text.
pub fn shape_of(text: &[u8]) -> Option<(Shape, usize)>
    ensures { result ≡ shape_at text.now 0 }
{
    let reader = Reader::new(text);
    reader.shape()
}

// The lines of the rows of a text, from a spot on.
pub fn rows_of(text: &[u8], spot: usize, size: Size) -> Result<(), Refusal>
    ensures { result ≡ rows_from text.now size.width size.height 2 spot }
{
    Reader::new(text).moved(spot).rows(size)
}
