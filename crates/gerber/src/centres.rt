// Centres, in nanometres either side of panel zero.
ghost use Rattle.std.specs.Prelude.{◌≡◌, true, suc, ◌+◌, ◌*◌, ◌/◌, ◌<◌, ◌≤◌, FitsSigned, IfOk};
ghost use Rattle.std.specs.Int.{w64};
ghost use Rattle.grid.specs.Limits.{side};
ghost use Rattle.grid.specs.Answers.{check, pitch_out, answered};
ghost use Rattle.cover.specs.Code.{rectangle_of, Drawn};
ghost use Rattle.cover.specs.Records.{flashes_in};
ghost use Rattle.gerber.specs.File.{pitch_in_range, pitch_fits, centre, coordinate_in_range, centre_fits, centres_fit};

use crate::flashes::Flashes;
use cover::flashes::Flash;
use grid::answers::{Refusal, check};

const LEAST_PITCH: u64 = 2;

const GREATEST_PITCH: u64 = 1000000;

// Ten digits, either side of 0.
const MOST: i64 = 9999999999;

const LEAST: i64 = -9999999999;

fn pitch_in_range(pitch: u64) -> bool
    ensures { result ≡ pitch_in_range pitch }
{
    LEAST_PITCH <= pitch && pitch <= GREATEST_PITCH
}

pub fn pitch_fits(pitch: u64) -> bool
    ensures { result ≡ pitch_fits pitch }
{
    pitch_in_range(pitch) && pitch % 2 == 0
}

// One axis of the panel: the grid's pitch, and where the grid's first line lies.
#[derive(Clone, Copy)]
pub struct Axis {
    pub pitch: u64,
    pub origin: i64,
    ghost fits: { pitch_fits pitch ≡ true },
    ghost in_word: { FitsSigned w64 origin },
}

impl Axis {
    // From the origin to the centre of the squares a to b.
    fn from_origin(self, a: usize, b: usize) -> u64
        requires { (a ≤ b) × (b < side) }
        ensures { (result ≡ self.pitch / 2 * (a + suc b)) × (result ≤ 1000000 * side) }
    {
        self.pitch / 2 * (a as u64 + (b as u64 + 1))
    }

    // The origin is compared before anything is added to it: it may be the greatest i64.
    pub fn coordinate_fits(self, a: usize, b: usize) -> bool
        requires { (a ≤ b) × (b < side) }
        ensures { result ≡ coordinate_in_range (centre self.pitch self.origin a b) }
    {
        if MOST < self.origin {
            return false;
        }
        let centre = self.origin + self.from_origin(a, b) as i64;
        LEAST <= centre && centre <= MOST
    }

    pub fn centre(self, a: usize, b: usize) -> i64
        requires squares { (a ≤ b) × (b < side) }
        requires ten_digits { coordinate_in_range (centre self.pitch self.origin a b) ≡ true }
        ensures { result ≡ centre self.pitch self.origin a b }
    {
        self.origin + self.from_origin(a, b) as i64
    }
}

// The panel's two axes, with one pitch.
#[derive(Clone, Copy)]
pub struct Plane {
    pub pitch: u64,
    pub x: i64,
    pub y: i64,
    ghost fits: { pitch_fits pitch ≡ true },
    ghost in_words: { FitsSigned w64 x × FitsSigned w64 y },
}

impl Plane {
    // 13.
    pub fn checked(pitch: u64, x: i64, y: i64) -> Result<Plane, Refusal>
        ensures value { answered result ≡ check (pitch_fits pitch) pitch_out }
        ensures plane { IfOk result (λ p. (p.pitch ≡ pitch) × (p.x ≡ x) × (p.y ≡ y)) }
    {
        check(pitch_fits(pitch), Refusal::PitchOut)?;
        Ok(Plane { pitch, x, y })
    }

    pub fn across(self) -> Axis
        ensures { (result.pitch ≡ self.pitch) × (result.origin ≡ self.x) }
    {
        Axis {
            pitch: self.pitch,
            origin: self.x,
        }
    }

    pub fn upward(self) -> Axis
        ensures { (result.pitch ≡ self.pitch) × (result.origin ≡ self.y) }
    {
        Axis {
            pitch: self.pitch,
            origin: self.y,
        }
    }

    fn centre_fits(self, q: Flash) -> bool
        requires { Drawn (rectangle_of q) }
        ensures { result ≡ centre_fits self.pitch self.x self.y (rectangle_of q) }
    {
        self.across().coordinate_fits(q.first.0, q.last.0)
            && self.upward().coordinate_fits(q.bottom.0, q.top.0)
    }

    pub fn centres_fit(self, flashes: Flashes) -> bool
        ensures { result ≡ centres_fit self.pitch self.x self.y (flashes_in flashes.entry.count flashes.entry.records.now) }
    {
        (0..flashes.count).all(|k| self.centre_fits(flashes.at(k)))
    }
}
