// The apertures of a file: a table of sizes, in order.
ghost use Rattle.std.specs.Prelude.{◌≡◌, List, [], ◌∷◌, ◌++◌, ◌<◌, ◌≤◌, length, take};
ghost use Rattle.grid.specs.Limits.{side};
ghost use Rattle.gerber.specs.declared.sizes.Size.{Size};
ghost use Rattle.gerber.specs.File.{added};
ghost use Rattle.gerber.specs.Code.{OnGrid, EachOnGrid, Listed};

use crate::sizes::Size;
use grid::limits::SIDE;
use std::marker::Model;

#[derive(Drop)]
pub struct Apertures {
    table: [Size; SIDE],
    count: usize,
}

impl Model for Apertures {
    ghost Value = { List Size };

    ghost view = { λ a. take a.count a.table };

    ghost invariant = { λ a. Listed a.count a.table };
}

impl Apertures {
    pub fn none() -> Apertures
        ensures { result ≡ [] }
    {
        Apertures {
            table: [Size { wide: 0, high: 0 }; SIDE],
            count: 0,
        }
    }

    pub(crate) fn sizes(&self) -> &[Size]
        ensures are { result.now ≡ self.now }
        ensures few { length self.now ≤ side }
        ensures on_grid { EachOnGrid self.now }
    {
        &self.table[..self.count]
    }

    pub fn push(&mut self, size: Size)
        requires { (length self.old < side) × OnGrid size }
        ensures { self.new ≡ self.old ++ (size ∷ []) }
    {
        self.table[self.count] = size;
        self.count += 1;
    }

    // Put behind the others, unless it is one of them.
    pub fn note(&mut self, size: Size)
        requires { (length self.old < side) × OnGrid size }
        ensures { self.new ≡ added self.old size }
    {
        if !self.sizes().contains(&size) {
            self.push(size);
        }
    }
}
