// The marks' rule: while the final set of what is left holds a column once, the leftmost such column is marked and struck.
ghost use Rattle.std.specs.Prelude.{◌≡◌, ◌*◌, ◌≤◌, length};
ghost use Rattle.std.proofs.Math.Option.{some};
ghost use Rattle.grid.specs.Limits.{bracket_record};
ghost use Rattle.intervals.specs.declared.Table.{Table};
ghost use Rattle.counts.specs.Marks.{once_of, next_of, marks_of, noted_for, Turned};

use grid::lines::Column;

// What is left to mark, with whatever a way to the marks keeps beside the set.
pub trait Unmarked {
    ghost set: { Self → Table };

    // What is kept beside the set is true of it.
    ghost kept: { Self → Type 0 };

    // The leftmost column that the final set holds once.
    fn next_column(&self) -> Option<Column>
        requires { kept self.now }
        ensures { result ≡ once_of (next_of (set self.now)) };

    // Its mark is noted, and the column struck.
    fn note_mark(&mut self, column: Column, noted: &mut [u8])
        requires kept { kept self.old }
        requires next { next_of (set self.old) ≡ some column.0 }
        requires bracket_record_in_bounds { (set self.old).last.0 * bracket_record ≤ length noted.old }
        ensures kept { kept self.new }
        ensures turned { Turned (set self.old) noted.old (set self.new) noted.new };
}

// "If it is empty, stop.": where no column is held once, nothing is left. Answers how many marks there are.
pub fn note_marks<U: Unmarked>(left: &mut U, noted: &mut [u8]) -> usize
    requires kept { U.kept left.old }
    requires bracket_record_in_bounds { (U.set left.old).last.0 * bracket_record ≤ length noted.old }
    ensures value { result ≡ length (marks_of (U.set left.old)) }
    ensures noted_after { noted.new ≡ noted_for (marks_of (U.set left.old)) noted.old }
{
    let mut marks: usize = 0;
    while let Some(column) = left.next_column() {
        left.note_mark(column, noted);
        marks += 1;
    }
    marks
}
