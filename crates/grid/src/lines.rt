// A column, a row and a grid line are three counts that are never taken for one another; an interval lies between two lines.
ghost use Rattle.std.specs.Prelude.{◌≡◌, ◌+◌, ◌^◌, ◌<◌, ◌≤◌};
ghost use Rattle.grid.specs.Lines.{left_line, right_line, whole_to, length_of, meet_of, contains_of, holds_of, columns_of};

use crate::limits::SIDE;

#[derive(Clone, Copy, Debug, PartialEq, Eq, PartialOrd, Ord)]
pub struct Column(pub usize);

#[derive(Clone, Copy, Debug, PartialEq, Eq, PartialOrd, Ord)]
pub struct Row(pub usize);

#[derive(Clone, Copy, Debug, PartialEq, Eq, PartialOrd, Ord)]
pub struct Line(pub usize);

#[derive(Clone, Copy, Debug, PartialEq, Eq)]
pub struct Interval {
    pub left: Line,
    pub right: Line,
}

// A square that is evidence.
#[derive(Clone, Copy, Debug, PartialEq, Eq)]
pub struct Mark {
    pub column: Column,
    pub row: Row,
}

impl Column {
    // The line at the column's left edge: column c lies between lines c and c + 1.
    pub fn left_line(self) -> Line
        ensures { result ≡ left_line self }
    {
        Line(self.0)
    }

    // The line at the column's right edge.
    pub fn right_line(self) -> Line
        requires { self.0 + 1 < 2 ^ 64 }
        ensures { result ≡ right_line self }
    {
        Line(self.0 + 1)
    }
}

impl Line {
    // The column to the right of the line.
    pub fn column_after(self) -> Column
        ensures { left_line result ≡ self }
    {
        Column(self.0)
    }

    // The column to the left of the line: a right line gives the last column.
    pub fn column_before(self) -> Column
        requires { 1 ≤ self.0 }
        ensures { right_line result ≡ self }
    {
        Column(self.0 - 1)
    }
}

impl Interval {
    // The whole width of the largest grid.
    pub const WHOLE: Interval = Interval {
        left: Line(0),
        right: Line(SIDE),
    };

    // The whole width of a grid whose last line this is.
    pub fn up_to(last: Line) -> Interval
        ensures { result ≡ whole_to last }
    {
        Interval {
            right: last,
            ..Interval::WHOLE
        }
    }

    pub fn length(self) -> usize
        ensures { result ≡ length_of self }
    {
        self.right.0.saturating_sub(self.left.0)
    }

    pub fn meet(self, other: Interval) -> Interval
        ensures { result ≡ meet_of self other }
    {
        Interval {
            left: self.left.max(other.left),
            right: self.right.min(other.right),
        }
    }

    // The other is an interval and lies wholly inside this one.
    pub fn contains(self, other: Interval) -> bool
        ensures { result ≡ contains_of self other }
    {
        other.left < other.right && self.left <= other.left && other.right <= self.right
    }

    // The column's left line lies from this one's left line on and before its right line.
    pub fn holds(self, column: Column) -> bool
        ensures { result ≡ holds_of self column }
    {
        let line = column.left_line();
        self.left <= line && line < self.right
    }

    // The first column and the last, where there is one.
    pub fn columns(self) -> Option<(Column, Column)>
        ensures { result ≡ columns_of self }
    {
        if self.left < self.right {
            Some((self.left.column_after(), self.right.column_before()))
        } else {
            None
        }
    }
}
