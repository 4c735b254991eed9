// The rows from the greatest bottom to the least end of several columns, one beside the other.
ghost use Rattle.std.specs.Prelude.{◌≡◌, ◌-◌, ◌≤◌, length};
ghost use Rattle.columns.specs.Columns.{greatest_in, least_in};

use grid::limits::SIDE;

// The greatest of the numbers from the first column to before the end; 0 where there is none.
pub fn greatest(numbers: &[u8], first: usize, end: usize) -> u8
    requires { end ≤ length numbers.now }
    ensures { result ≡ greatest_in numbers.now first (end - first) }
{
    numbers[first.min(end)..end]
        .iter()
        .fold(0, |most, n| most.max(*n))
}

// The least of them, at most a grid's height.
pub fn least(numbers: &[u8], first: usize, end: usize) -> u8
    requires { end ≤ length numbers.now }
    ensures { result ≡ least_in numbers.now first (end - first) }
{
    numbers[first.min(end)..end]
        .iter()
        .fold(SIDE as u8, |few, n| few.min(*n))
}
