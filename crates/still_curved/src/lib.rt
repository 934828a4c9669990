// Which rows stay curved: the motion in force at a row, and whether the row shows a curve.
#![tactic(auto)]

ghost use Rattle.std.specs.Prelude.{◌≡◌, get_or};
ghost use Rattle.motion.specs.Motion.{is_curve};
ghost use Rattle.still_curved.specs.Curved.{motion_after, shows, seen_of};

use layout::{AXIS_MASKS, C_CR, LIST_MASKS, R_MOTION, R_PRESENT};
use motion::{is_curve, kind_of};

// The cells of a path: the axes, and I J K CR, which stand behind the codes of a list.
const PATH_MASK: u64 = AXIS_MASKS - 1 + ((1 << (C_CR + 1) as u64) - LIST_MASKS);

// What a row is seen as: the motion in force at it, and whether it stays curved.
#[derive(Clone, Copy)]
pub struct Seen {
    pub motion: u64,
    pub curved: bool,
}

// Word k of a row, 0 where it has none.
fn word_of(row: &[u64], k: usize) -> u64
    ensures { result ≡ get_or row.now k 0 }
{
    if k < row.len() {
        return row[k];
    }
    0
}

fn motion_after(row: &[u64], motion: u64) -> u64
    ensures { result ≡ motion_after motion row.now }
{
    let own = word_of(row, R_MOTION);
    if own == 0 {
        return motion;
    }
    own
}

fn shows_path(row: &[u64]) -> bool
    ensures { result ≡ shows row.now }
{
    let present = word_of(row, R_PRESENT);
    present & PATH_MASK != 0
}

fn curves(motion: u64) -> bool
    ensures { result ≡ is_curve motion }
{
    is_curve(kind_of(motion))
}

// A row under the motion in force before it.
pub fn still_curved(row: &[u64], motion: u64) -> Seen
    ensures { result ≡ seen_of motion row.now }
{
    let now = motion_after(row, motion);
    Seen {
        motion: now,
        curved: shows_path(row) && curves(now),
    }
}
