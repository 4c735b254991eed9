// Reads sets of intervals and merges each from the left, from the right and in a random order: the reductions and the final set.
// A set is two lines: its name; its last line and its intervals. Of the second only the numbers count.
#![tactic(auto)]

ghost use Rattle.std.specs.Prelude.{◌≡◌, ◌<◌, ◌≤◌, ℕ, length, IfSome};
ghost use Rattle.std.specs.Fn.{FnOnceReturnsAtMut};
ghost use Rattle.grid.specs.Limits.{side};

use grid::limits::{BRACKET_ROOM, LINES, SIDE};
use grid::lines::{Interval, Line};
use input::read_full;
use intervals::Table;
use intervals::dependent::dependent;
use intervals::final_set::final_set;
use intervals::reduce::reduce;
use std::io;

// A longer text is cut off here, so the program ends on endless input too.
const TEXT_ROOM: usize = 65536;

// The next number, and what follows it. Of one that no line has the first digits count.
fn next_number(s: &[u8]) -> Option<(usize, &[u8])>
    ensures { IfSome result (λ r. length r.1.now < length s.now) }
{
    let start = s.iter().position(u8::is_ascii_digit)?;
    let mut value = usize::from(s[start] - b'0');
    let mut rest = &s[start + 1..];
    while let Some((digit, others)) = rest.split_first() {
        if SIDE < value || !digit.is_ascii_digit() {
            break;
        }
        value = value * 10 + usize::from(*digit - b'0');
        rest = others;
    }
    Some((value, rest))
}

// The intervals from line `left`.
fn print_row(rt: &impl Print, t: &Table, left: Line) -> io::Result<()> {
    let from = left.0;
    let mut edge = left;
    while let Some(right) = t.next_end(left, edge) {
        let to = right.0;
        print!(rt; " ({from}, {to})")?;
        edge = right;
    }
    Ok(())
}

// The set, which is one over the lines 0 to last.
fn print(rt: &impl Print, t: &Table, last: Line) -> io::Result<()>
    requires { t.now.last ≡ last }
{
    for left in 0..last.0 {
        print_row(rt, t, Line(left))?;
    }
    Ok(())
}

// Merging in three orders (document 02, R-8): each step reduces a minimal bracket, and only their choice differs. This one is rule 5 itself.
fn merge_left(t: &mut Table) -> usize
    ensures { t.new.last ≡ t.old.last }
{
    let mut room = [0u8; BRACKET_ROOM];
    final_set(t, &mut room)
}

// By the brackets that are chosen. Each reduction takes an interval away, so there are no more than intervals.
fn merge<F: FnMut(&Table) -> Option<Interval>>(t: &mut Table, mut choose: F) -> usize
    requires { F.IsAlwaysCallable choose }
    ensures { t.new.last ≡ t.old.last }
{
    let intervals = t.size();
    for reductions in 0..intervals {
        let Some(d) = choose(t) else {
            return reductions;
        };
        reduce(t, d);
    }
    intervals
}

// The mirror of rule 5: the greatest left line, and there the shortest. No dependent bracket lies inside it.
fn merge_right(t: &mut Table) -> usize
    ensures { t.new.last ≡ t.old.last }
{
    merge(t, |t| {
        (0..t.last.0)
            .rev()
            .find_map(|left| beginning_at(t, Line(left)))
    })
}

// At each step from a line that looks random.
fn merge_random(t: &mut Table, seed: usize) -> usize
    ensures { t.new.last ≡ t.old.last }
{
    let mut number = seed;
    merge(t, |t| {
        number = following(number);
        chosen_by(t, number)
    })
}

// The shortest dependent bracket that begins at line `left`.
fn beginning_at(t: &Table, left: Line) -> Option<Interval> {
    (left.0..=t.last.0)
        .map(|right| Interval {
            left,
            right: Line(right),
        })
        .find(|d| dependent(t, *d))
}

// The shortest one that ends at line `right` and does not begin before line `least`.
fn ending_at(t: &Table, least: Line, right: Line) -> Option<Interval> {
    (least.0..right.0)
        .rev()
        .map(|left| Interval {
            left: Line(left),
            right,
        })
        .find(|d| dependent(t, *d))
}

// The first one by right lines, of the lines `from` to `to`.
fn ending_within(t: &Table, least: Line, from: Line, to: Line) -> Option<Interval> {
    (from.0..=to.0).find_map(|right| ending_at(t, least, Line(right)))
}

// A minimal one inside the first dependent one by right lines beyond a line that the number gives, and from line 0 on again.
fn chosen_by(t: &Table, number: usize) -> Option<Interval> {
    let start = number / 65536 % LINES;
    let d = ending_within(t, Line(0), Line(start + 1), t.last).or_else(|| ending_within(
        t,
        Line(0),
        Line(0),
        Line(start),
    ))?;
    // Rule 5's search inside a bracket: what it finds is minimal.
    ending_within(t, d.left, d.left, d.right)
}

// The next of a row of numbers that look random.
fn following(number: usize) -> usize
    ensures { result < 2147483648 }
{
    (number % 2147483648 * 1103515245 + 12345) % 2147483648
}

// The seed of the random order: a number made of the name's bytes.
fn seed(name: &[u8]) -> usize {
    let mut number = 0;
    for b in name {
        number = following(number + usize::from(*b));
    }
    number
}

fn print_merged<F: FnOnce(&mut Table) -> usize>(
    rt: &impl Print,
    how: &str,
    set: &Table,
    last: Line,
    merge: F,
) -> io::Result<()>
    requires callable { F.IsAlwaysCallable merge }
    requires keeps { (t t' : Table) (reductions : ℕ) → FnOnceReturnsAtMut F.FnOnce merge t reductions t' → t'.last ≡ t.last }
    requires over { set.now.last ≡ last }
{
    let mut work = *set;
    let reductions = merge(&mut work);
    print!(rt; "{how}, {reductions} reductions:")?;
    print(rt, &work, last)?;
    println!(rt)
}

// The set of the intervals that a line's numbers say, two by two.
fn read_set(last: Line, line: &[u8]) -> Table
    requires { last.0 ≤ side }
    ensures { result.last ≡ last }
{
    let mut t = Table::empty(last);
    let mut rest = line;
    while let Some((left, others)) = next_number(rest) {
        let Some((right, others)) = next_number(others) else {
            break;
        };
        t.put(Interval {
            left: Line(left),
            right: Line(right),
        });
        rest = others;
    }
    t
}

fn print_set(rt: &impl Print, name: &[u8], line: &[u8]) -> io::Result<()> {
    rt.write_all(name)?;
    let (last, others) = next_number(line).unwrap_or((0, line));
    if SIDE < last {
        return Ok(());
    }
    let last = Line(last);
    let set = read_set(last, others);
    print_merged(rt, "from the left", &set, last, merge_left)?;
    print_merged(rt, "from the right", &set, last, merge_right)?;
    print_merged(rt, "at random", &set, last, |t| {
        merge_random(t, seed(name))
    })
}

fn main(rt: HostRuntime) -> io::Result<()> {
    let mut text = [0u8; TEXT_ROOM];
    let n = read_full(&mut rt.stdin(), &mut text)?;
    let mut lines = text[..n].split_inclusive(|b| *b == b'\n');
    while let Some(name) = lines.next() {
        print_set(&rt, name, lines.next().unwrap_or(b""))?;
    }
    Ok(())
}
