// The copper number by columns.
ghost use Rattle.std.specs.Prelude.{◌≡◌, ◌≤◌, length};
ghost use Rattle.grid.specs.Limits.{side};
ghost use Rattle.columns.specs.Columns.{Upright, heights_to};

// From bottom to end of each of the first columns.
pub fn heights(width: usize, bottoms: &[u8], ends: &[u8]) -> usize
    requires width_le_side { (width ≤ side) × (width ≤ length bottoms.now) × (width ≤ length ends.now) }
    requires upright { Upright width bottoms.now ends.now }
    ensures { result ≡ heights_to width bottoms.now ends.now }
{
    let mut n: usize = 0;
    for (bottom, end) in bottoms[..width].iter().zip(&ends[..width]) {
        n += usize::from(*end - *bottom);
    }
    n
}
