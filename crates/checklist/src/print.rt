// The printed form of what the check gave: a line with the verdict or the refusal, and our marks behind a sound one.
ghost use Rattle.std.specs.Prelude.{◌*◌, ◌≤◌, ◌+◌, length};
ghost use Rattle.grid.specs.Limits.{side, mark_record};
ghost use Rattle.grid.specs.Rooms.{Written};
ghost use Rattle.printed.specs.Printed.{print_room};
ghost use Rattle.checklist.specs.Program.{verdict_line, checked_text};

use grid::answers::DONE;
use grid::limits::MARK_RECORD;
use listcheck::entry::{BAD, BARE, Checked};
use text::line::{put_line, put_record_lines};

#[tactic(auto, unfolding(crate::specs::Program::verdict_line))]
fn put_verdict(out: &mut [u8], checked: Checked) -> usize
    requires { length (verdict_line checked) ≤ length out.old }
    ensures { Written out.old 0 (verdict_line checked) result out.new }
{
    match (checked.answer, checked.verdict) {
        (DONE, BAD) => put_line(out, 0, b"bad", &[checked.place_x]),
        (DONE, BARE) => put_line(out, 0, b"bare", &[checked.place_x, checked.place_y]),
        (DONE, _) => put_line(out, 0, b"sound", &[checked.above]),
        (answer, _) => put_line(
            out,
            0,
            b"refused",
            &[answer, checked.place_x, checked.place_y],
        ),
    }
}

// No verdict but sound, and no refusal, has marks.
pub fn print_checked(checked: Checked, marks: &[u8], out: &mut [u8]) -> usize
    requires { (checked.marks ≤ side) × (checked.marks * mark_record ≤ length marks.now) × (print_room ≤ length out.old) }
    ensures { Written out.old 0 (checked_text checked marks.now) result out.new }
{
    let at = put_verdict(out, checked);
    put_record_lines(out, at, b"mark", marks, MARK_RECORD, checked.marks as usize)
}
