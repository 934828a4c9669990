// A coordinate of a picture, as a whole number of millionths of a millimetre: what the text of a row has, exactly. It is
// counted from ORIGIN on, so that none is negative.
#![tactic(auto)]

ghost use Rattle.std.specs.Prelude.{◌≡◌, ◌+◌, ◌≤◌, length};
ghost use Rattle.csv_figures.specs.Out.{Wrote};
ghost use Rattle.picture_place.specs.Place.{farthest, near, place_of, place_text, place_room, across};

use csv_figures::{put_byte, put_millionths};

pub const ORIGIN: u64 = 1000000000000000;

// How far from the origin a coordinate is at most: numbers of row text are below 10^9.
const FARTHEST: u64 = ORIGIN - 1;

// v, or FARTHEST where it is more.
#[tactic(auto, unfolding(crate::specs::Place::near))]
fn within(v: u64) -> u64
    ensures { (result ≡ near v) × (result ≤ farthest) }
{
    v.min(FARTHEST)
}

// The place of a number of a row.
#[tactic(auto, unfolding(crate::specs::Place::place_of))]
pub fn place_of(x: f64) -> u64
    ensures { result ≡ place_of x }
{
    let v = within(csv_decimal::in_millionths(x));
    if x < 0.0 { ORIGIN - v } else { ORIGIN + v }
}

// The place on the other side of the origin, as far from it.
#[tactic(auto, unfolding(crate::specs::Place::across))]
pub fn across(p: u64) -> u64
    ensures { result ≡ across p }
{
    if p < ORIGIN {
        ORIGIN + within(ORIGIN - p)
    } else {
        ORIGIN - within(p - ORIGIN)
    }
}

// Stores the coordinate in millimetres from n on, with six decimals.
pub fn put_place(out: &mut [u8], n: usize, p: u64) -> usize
    requires { n + place_room ≤ length out.old }
    ensures { Wrote out.old n (place_text p) out.new result }
{
    if p < ORIGIN {
        let a = put_byte(out, n, b'-');
        return put_millionths(out, a, within(ORIGIN - p));
    }
    put_millionths(out, n, within(p - ORIGIN))
}
