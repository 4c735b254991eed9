// The lines of a file, each written at a spot.
ghost use Rattle.std.specs.Prelude.{◌≡◌, true, [], ◌+◌, ◌<◌, ◌≤◌, length};
ghost use Rattle.std.proofs.Math.Option.{none};
ghost use Rattle.grid.specs.Limits.{side};
ghost use Rattle.grid.specs.Rooms.{Written};
ghost use Rattle.cover.specs.Code.{rectangle_of, Drawn};
ghost use Rattle.cover.specs.Records.{flashes_in};
ghost use Rattle.gerber.specs.File.{centres_fit, centre_fits, millimetres, apertures, aperture_line, aperture_lines, select_line};
ghost use Rattle.gerber.specs.File.{flash_line, flash_lines, centre_line, first_line, head_lines, gerber_file};
ghost use Rattle.gerber.specs.Code.{OnGrid};
ghost use Rattle.gerber.specs.Format.{number_of};
ghost use Rattle.gerber.specs.Parts.{selects_at};

use crate::apertures::Apertures;
use crate::centres::Plane;
use crate::flashes::Flashes;
use crate::sizes::{Size, place_of, size_of};
use crate::versions::Version;
use cover::flashes::Flash;
use grid::rooms::put_bytes;
use text::signed::print_signed;
use text::write::{print_number, put_digits};

// Apertures are numbered from D10.
pub const FIRST_NUMBER: u64 = 10;

const MILLIMETRE: u64 = 1000000;

const DECIMALS: usize = 6;

// A length in nanometres.
#[tactic(auto, using(crate::proofs::Pieces::length_millimetres))]
pub fn put_millimetres(room: &mut [u8], spot: usize, value: u64) -> usize
    requires { spot + length (millimetres value) ≤ length room.old }
    ensures { Written room.old spot (millimetres value) result room.new }
{
    let point = print_number(room, spot, value / MILLIMETRE);
    let digits = put_bytes(room, point, b".");
    put_digits(room, digits, DECIMALS, value)
}

#[tactic(auto, using(crate::proofs::Pieces::length_aperture))]
fn put_aperture(room: &mut [u8], spot: usize, plane: Plane, k: usize, size: Size) -> usize
    requires within { (k < side) × OnGrid size }
    requires fits { spot + length (aperture_line plane.pitch k size) ≤ length room.old }
    ensures { Written room.old spot (aperture_line plane.pitch k size) result room.new }
{
    let number = put_bytes(room, spot, b"%ADD");
    let form = print_number(room, number, FIRST_NUMBER + k as u64);
    let wide = put_bytes(room, form, b"R,");
    let times = put_millimetres(room, wide, size.wide as u64 * plane.pitch);
    let high = put_bytes(room, times, b"X");
    let end = put_millimetres(room, high, size.high as u64 * plane.pitch);
    put_bytes(room, end, b"*%\n")
}

#[tactic(auto, using(crate::proofs::Pieces::length_select))]
fn put_select(room: &mut [u8], spot: usize, k: usize) -> usize
    requires { (k ≤ side) × (spot + length (select_line k) ≤ length room.old) }
    ensures { Written room.old spot (select_line k) result room.new }
{
    let number = put_bytes(room, spot, b"D");
    let end = print_number(room, number, FIRST_NUMBER + k as u64);
    put_bytes(room, end, b"*\n")
}

fn put_flash(room: &mut [u8], spot: usize, x: i64, y: i64) -> usize
    requires { spot + length (flash_line x y) ≤ length room.old }
    ensures { Written room.old spot (flash_line x y) result room.new }
{
    let across = put_bytes(room, spot, b"X");
    let upward = print_signed(room, across, x);
    let up = put_bytes(room, upward, b"Y");
    let end = print_signed(room, up, y);
    put_bytes(room, end, b"D03*\n")
}

fn put_centre(room: &mut [u8], spot: usize, plane: Plane, q: Flash) -> usize
    requires fits { Drawn (rectangle_of q) × (centre_fits plane.pitch plane.x plane.y (rectangle_of q) ≡ true) }
    requires q_in_bounds { spot + length (centre_line plane.pitch plane.x plane.y (rectangle_of q)) ≤ length room.old }
    ensures { Written room.old spot (centre_line plane.pitch plane.x plane.y (rectangle_of q)) result room.new }
{
    let across = plane.across().centre(q.first.0, q.last.0);
    let up = plane.upward().centre(q.bottom.0, q.top.0);
    put_flash(room, spot, across, up)
}

fn put_apertures(room: &mut [u8], spot: usize, plane: Plane, apertures: &Apertures) -> usize
    requires { spot + length (aperture_lines plane.pitch 0 apertures.now) ≤ length room.old }
    ensures { Written room.old spot (aperture_lines plane.pitch 0 apertures.now) result room.new }
{
    let mut at = spot;
    for (k, size) in apertures.sizes().iter().enumerate() {
        at = put_aperture(room, at, plane, k, *size);
    }
    at
}

// At each change of size; there is none before the first flash.
fn put_change(room: &mut [u8], spot: usize, before: Option<Size>, size: Size, place: usize) -> usize
    requires { (place ≤ side) × (spot + length (selects_at before size place) ≤ length room.old) }
    ensures { Written room.old spot (selects_at before size place) result room.new }
{
    if before == Some(size) {
        return spot;
    }
    put_select(room, spot, place)
}

fn put_flashes(
    room: &mut [u8],
    spot: usize,
    plane: Plane,
    flashes: Flashes,
    apertures: &Apertures,
) -> usize
    requires centres { centres_fit plane.pitch plane.x plane.y (flashes_in flashes.count flashes.records.now) ≡ true }
    requires fits { spot + length (flash_lines plane.pitch plane.x plane.y apertures.now none (flashes_in flashes.count flashes.records.now)) ≤ length room.old }
    ensures { Written room.old spot (flash_lines plane.pitch plane.x plane.y apertures.now none (flashes_in flashes.entry.count flashes.entry.records.now)) result room.new }
{
    let mut at = spot;
    let mut before = None;
    for k in 0..flashes.count {
        let q = flashes.at(k);
        let size = size_of(q);
        let line = put_change(room, at, before, size, place_of(apertures.sizes(), size));
        at = put_centre(room, line, plane, q);
        before = Some(size);
    }
    at
}

// The distinct sizes of the flashes, in order of first use, into a table that is lent empty.
fn note_used(table: &mut Apertures, flashes: Flashes)
    requires { table.old ≡ [] }
    ensures { table.new ≡ apertures (flashes_in flashes.entry.count flashes.entry.records.now) }
{
    for k in 0..flashes.count {
        table.note(size_of(flashes.at(k)));
    }
}

#[tactic(auto, unfolding(crate::specs::File::first_line))]
fn put_first(room: &mut [u8], version: Version) -> usize
    requires { length (first_line (number_of version)) ≤ length room.old }
    ensures { Written room.old 0 (first_line (number_of version)) result room.new }
{
    match version {
        Version::Comments => put_bytes(room, 0, b"G04 #@! TF.FileFunction,Copper,L1,Top*\n"),
        Version::Attributes => put_bytes(room, 0, b"%TF.FileFunction,Copper,L1,Top*%\n"),
    }
}

// A version that is not known has the second one's first line, as the definition has it.
fn put_head(room: &mut [u8], version: u64) -> usize
    requires { length (head_lines version) ≤ length room.old }
    ensures { Written room.old 0 (head_lines version) result room.new }
{
    let form = Version::try_from(version).unwrap_or(Version::Attributes);
    let format = put_first(room, form);
    put_bytes(room, format, b"%FSLAX46Y46*%\n%MOMM*%\n")
}

// Not inlined: its table would lie under the cover's frames.
#[inline(never)]
pub fn put_file(room: &mut [u8], version: u64, plane: Plane, flashes: Flashes) -> usize
    requires centres { centres_fit plane.pitch plane.x plane.y (flashes_in flashes.count flashes.records.now) ≡ true }
    requires fits { length (gerber_file version plane.pitch plane.x plane.y (flashes_in flashes.count flashes.records.now)) ≤ length room.old }
    ensures { Written room.old 0 (gerber_file version plane.pitch plane.x plane.y (flashes_in flashes.entry.count flashes.entry.records.now)) result room.new }
{
    let mut apertures = Apertures::none();
    note_used(&mut apertures, flashes);
    let first = put_head(room, version);
    let next = put_apertures(room, first, plane, &apertures);
    let end = put_flashes(room, next, plane, flashes, &apertures);
    put_bytes(room, end, b"M02*\n")
}
