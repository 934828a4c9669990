// A block at a state: what it comes to, resolved once.
#![tactic(auto)]

ghost use Rattle.std.specs.Prelude.{◌≡◌, ◌&&◌, not, cond, ◌≤◌, eqb};
ghost use Rattle.motion.specs.Motion.{is_other, last_motion};
ghost use Rattle.row_cells.specs.Bits.{has};
ghost use Rattle.push_resolve.specs.Blocks.{or_now};
ghost use Rattle.push_resolve.specs.Asks.{Block};
ghost use Rattle.push_resolve.specs.Resolved.{resolved};

use layout::{R_MOTION, R_PLANE, W_HELD, W_MOTION, W_PLANE, W_WARNED};
use motion::{Kind, is_other, kind_of};
use row_cells::has_bit;
use saved_state::state::geometric_mask;

// What a block comes to at a state: the motion then in force, its kind, the plane; whether the held spline goes out first
// and how many blocks stay held; whether its word is to be warned of; the mask of the geometric axes.
#[derive(Clone, Copy)]
pub struct Resolved {
    pub kind: Kind,
    pub motion: u64,
    pub plane: u64,
    pub emits: bool,
    pub kept: u64,
    pub news: bool,
    pub axes: u64,
}

// A motion or plane cell, or what is in force where there is none.
#[tactic(auto, unfolding(crate::specs::Blocks::or_now))]
fn or_now(v: u64, now: u64) -> u64
    ensures { result ≡ or_now v now }
{
    if v == 0 { now } else { v }
}

// Whether a block ends the spline that is held.
fn ends_spline(held: u64, then: u64, now: u64) -> bool
    ensures { result ≡ (not (eqb held 0) && not (eqb then now)) }
{
    held != 0 && then != now
}

// The blocks still held before this one.
fn still_held(emits: bool, held: u64) -> u64
    ensures { result ≡ cond emits 0 held }
{
    if emits { 0 } else { held }
}

// Whether a motion cell has another curve's word that was not warned of yet.
#[tactic(auto, unfolding(motion::specs::Motion::is_other))]
fn is_news(warned: u64, word: u64) -> bool
    requires { word ≤ last_motion }
    ensures { result ≡ (is_other word && not (has warned word)) }
{
    is_other(kind_of(word)) && !has_bit(warned, word)
}

pub fn resolve(state: &[u64], row: &[u64]) -> Resolved
    requires { Block state.now row.now }
    ensures { result ≡ resolved state.now row.now }
{
    let held = state[W_HELD];
    let motion = or_now(row[R_MOTION], state[W_MOTION]);
    let plane = or_now(row[R_PLANE], state[W_PLANE]);
    let emits = ends_spline(held, motion, state[W_MOTION]);
    let kept = still_held(emits, held);
    let news = is_news(state[W_WARNED], row[R_MOTION]);
    let axes = geometric_mask(state);
    Resolved {
        kind: kind_of(motion),
        motion,
        plane,
        emits,
        kept,
        news,
        axes,
    }
}
