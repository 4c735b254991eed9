// The size of a flash, in squares.
ghost use Rattle.std.specs.Prelude.{◌≡◌, ◌==◌, ◌+◌, ◌*◌, ◌^◌, ◌<◌};
ghost use Rattle.std.specs.Ordering.{on, eq_of_both};
ghost use Rattle.std.specs.Cmp.Rules.{comparing};
ghost use Rattle.std.proofs.Common.{rules};
ghost use Rattle.cover.specs.Code.{rectangle_of, Drawn};
ghost use Rattle.gerber.specs.File.{size_of, place_of};

use cover::flashes::Flash;

// How many values a side can have as a machine's number.
const SIDE_VALUES: u128 = 1 << usize::BITS;

#[derive(Clone, Copy, Debug)]
pub struct Size {
    pub wide: usize,
    pub high: usize,
}

impl Size {
    // Both sides as one number: a test of one side and then of the other is a branch more, which a processor guesses wrong where many sizes are as wide.
    fn number(self) -> u128
        ensures value { result ≡ self.wide * 2 ^ 64 + self.high }
        ensures high { self.high < 2 ^ 64 }
    {
        self.wide as u128 * SIDE_VALUES + self.high as u128
    }
}

impl PartialEq for Size {
    ghost eq = { eq_of_both (on (λ s. s.wide) ◌==◌) (on (λ s. s.high) ◌==◌) };

    ghost laws = { Prim.search (comparing, rules) };

    fn eq(&self, other: &Size) -> bool {
        self.number() == other.number()
    }
}

impl Eq for Size {
    ghost laws = { Prim.search (comparing, rules) };
}

pub fn size_of(q: Flash) -> Size
    requires { Drawn (rectangle_of q) }
    ensures { result ≡ size_of (rectangle_of q) }
{
    Size {
        wide: q.last.0 - q.first.0 + 1,
        high: q.top.0 - q.bottom.0 + 1,
    }
}

// How many of the sizes stand before this one; all, where it is none of them.
pub fn place_of(sizes: &[Size], size: Size) -> usize
    ensures { result ≡ place_of size sizes.now }
{
    sizes.iter().position(|s| size == *s).unwrap_or(sizes.len())
}
