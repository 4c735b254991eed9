// The bits of a machine word. Contracts speak of single bits, so that no caller reasons about shifts and masks.
#![tactic(auto, using(crate::proofs::Operations::steps))]

ghost use Rattle.std.specs.Prelude.{◌≡◌, cond, not, ◌&&◌, ◌||◌, ◌+◌, ◌-◌, ◌<◌, ◌≤◌, eqb, ltb};
ghost use Rattle.lists.specs.Lists as List;
ghost use Rattle.lists.specs.Lists.{first, down};
ghost use Rattle.grid.specs.Code.{or_end};
ghost use Rattle.words.specs.Words.{bits, on, Bits, past_of};
// The machine's number, not a limit of the grid; with another one the proofs fail.
pub const BITS: usize = u64::BITS as usize;

pub fn is_on(w: u64, k: usize) -> bool
    requires { k < bits }
    ensures { result ≡ on w k }
{
    (w >> k) & 1 == 1
}

pub fn with(w: u64, k: usize) -> u64
    requires { k < bits }
    ensures { Bits result (λ j. eqb j k || on w j) }
{
    w | (1u64 << k)
}

pub fn without(w: u64, k: usize) -> u64
    requires { k < bits }
    ensures { Bits result (λ j. not (eqb j k) && on w j) }
{
    w & !(1u64 << k)
}

// The bits before `end` alone. A shift by the whole word is not a shift.
pub fn below(w: u64, end: usize) -> u64
    requires { end ≤ bits }
    ensures { Bits result (λ j. ltb j end && on w j) }
{
    if BITS <= end {
        return w;
    }
    w & ((1u64 << end) - 1)
}

// The first bit from `from` on that is on; the number of bits where none is.
pub fn next_on(w: u64, from: usize) -> usize
    ensures { result ≡ or_end bits (first (on w) (List.from «from» (bits - «from»))) }
{
    if BITS <= from {
        return BITS;
    }
    let rest = w >> from;
    if rest == 0 {
        return BITS;
    }
    from + u64::trailing_zeros(rest) as usize
}

// One past the last bit before `before` that is on; 0 where none is.
pub fn last_on(w: u64, before: usize) -> usize
    requires { before ≤ bits }
    ensures { result ≡ past_of (first (on w) (down before)) }
{
    BITS - u64::leading_zeros(below(w, before)) as usize
}

pub fn flipped(w: u64, k: usize) -> u64
    requires { k < bits }
    ensures { Bits result (λ j. cond (eqb j k) (not (on w j)) (on w j)) }
{
    w ^ (1u64 << k)
}

// The bits that are on in one of the words and off in the other.
pub fn differing(w: u64, v: u64) -> u64
    ensures { Bits result (λ j. cond (on w j) (not (on v j)) (on v j)) }
{
    w ^ v
}

pub fn both(w: u64, v: u64) -> u64
    ensures { Bits result (λ j. on w j && on v j) }
{
    w & v
}

pub fn either(w: u64, v: u64) -> u64
    ensures { Bits result (λ j. on w j || on v j) }
{
    w | v
}

// The bits that are on, and their neighbours on either side.
pub fn spread(w: u64) -> u64
    ensures { Bits result (λ j. ltb j bits && (on w j || on w (j + 1) || (ltb 0 j && on w (j - 1)))) }
{
    w | (w >> 1) | (w << 1)
}

// The first bit from `from` on that is off; the number of bits where none is.
pub fn next_off(w: u64, from: usize) -> usize
    ensures { result ≡ or_end bits (first (λ k. not (on w k)) (List.from «from» (bits - «from»))) }
{
    next_on(!w, from)
}

// One past the last bit before `before` that is off; 0 where none is.
pub fn last_off(w: u64, before: usize) -> usize
    requires { before ≤ bits }
    ensures { result ≡ past_of (first (λ k. not (on w k)) (down before)) }
{
    last_on(!w, before)
}
