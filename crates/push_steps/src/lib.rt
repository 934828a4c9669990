// The steps by which a block changes the state, one a function.
#![tactic(auto)]

ghost use Rattle.std.specs.Prelude.{◌≡◌, cond, ◌<◌, ◌≤◌, length, set, get_or};
ghost use Rattle.layout.specs.Layout.{axis_codes, w_motion, w_plane, w_warned, state_words, most_held};
ghost use Rattle.saved_state.specs.State.{held, geometric_mask};
ghost use Rattle.row_cells.specs.Bits.{with_bit};
ghost use Rattle.push_resolve.specs.Asks.{Block};
ghost use Rattle.push_start.specs.Opened.{forgotten};
ghost use Rattle.push_state.specs.Pushed.{buffered, track_to};

use layout::{R_CELLS, R_PRESENT, W_MOTION, W_PLANE, W_WARNED};
use push_forget::forget;
use push_state::buffer;
use row_cells::{lowest_bit, other_bits, set_bit};
use saved_state::state::place;

// An emission went out first: what it leaves.
pub fn forget_if(state: &mut [u64], emitted: bool)
    requires { length state.old ≡ state_words }
    ensures { state.new ≡ cond emitted (forgotten state.old) state.old }
{
    if emitted {
        forget(state);
    }
}

// A block of a spline is buffered.
pub fn buffer_if(state: &mut [u64], row: &[u64], spline: bool)
    requires { (Block state.old row.now) × (held state.old ≤ most_held) }
    ensures { state.new ≡ cond spline (buffered state.old row.now) state.old }
{
    if spline {
        buffer(state, row);
    }
}

// The word is warned of from now on.
pub fn warn_if(state: &mut [u64], word: u64, new: bool)
    requires { (length state.old ≡ state_words) × (word < 64) }
    ensures { state.new ≡ cond new (set state.old w_warned (with_bit (get_or state.old w_warned 0) word))
        state.old }
{
    if new {
        let p = state[W_WARNED];
        state[W_WARNED] = set_bit(p, word);
    }
}

// The axes of a mask, which are the geometric ones, take their cells that are there.
pub fn track(state: &mut [u64], row: &[u64], axes: u64)
    requires { (Block state.old row.now) × (axes ≡ geometric_mask state.old) }
    ensures { state.new ≡ track_to axis_codes state.old row.now }
{
    // while: over the bits that are set, which no range counts
    let mut rest = row[R_PRESENT] & axes;
    while rest != 0 {
        let k = lowest_bit(rest);
        place(state, k, row[R_CELLS + k]);
        rest = other_bits(rest);
    }
}

// The motion and the plane in force from now on.
pub fn set_modal(state: &mut [u64], motion: u64, plane: u64)
    requires { length state.old ≡ state_words }
    ensures { state.new ≡ set (set state.old w_motion motion) w_plane plane }
{
    state[W_MOTION] = motion;
    state[W_PLANE] = plane;
}
