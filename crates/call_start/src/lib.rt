// Starting: a fresh state.
#![tactic(auto)]

ghost use Rattle.std.specs.Prelude.{◌≡◌, length, get_or};
ghost use Rattle.layout.specs.Layout.{state_words};
ghost use Rattle.call_start.specs.Start.{fresh_word, fresh, start_spec};
ghost use Rattle.call_reply.specs.Replies.{StateIs};

use call_reply::{Reply, plain_reply};
use layout::{STATE_WORDS, W_AXES, W_AXIS_COUNT, W_DEGREE, W_MOTION, W_PLANE, W_TOLERANCE};
use motion::G1;
use refusal::Refusal;
use row_cells::PLANE_XY;
use saved_state::state::{PLAIN_DEGREE, codes_ok, tol_ok};

fn code_or_0(axes: &[u64], j: usize) -> u64
    ensures { result ≡ get_or axes.now j 0 }
{
    axes.get(j).copied().unwrap_or(0)
}

// Word i of a fresh state.
#[tactic(auto, unfolding(crate::specs::Start::fresh_word))]
fn fresh_word(tolerance: u64, axes: &[u64], i: usize) -> u64
    ensures { result ≡ fresh_word tolerance axes.now i }
{
    match i {
        W_TOLERANCE => tolerance,
        W_AXIS_COUNT => axes.len() as u64,
        W_AXES..W_MOTION => code_or_0(axes, i - W_AXES),
        W_MOTION => G1,
        W_PLANE => PLANE_XY,
        W_DEGREE => PLAIN_DEGREE,
        _ => 0,
    }
}

fn write_fresh(state: &mut [u64], tolerance: u64, axes: &[u64])
    requires { length state.old ≡ state_words }
    ensures { state.new ≡ fresh tolerance axes.now }
{
    for (i, word) in state.iter_mut().enumerate() {
        *word = fresh_word(tolerance, axes, i);
    }
}

// Makes `state` a fresh one for this tolerance, by its bits, and this axis list.
pub fn start(state: &mut [u64], tolerance: u64, axes: &[u64]) -> Reply
    ensures { StateIs (start_spec state.old tolerance axes.now) result state.new }
{
    if state.len() != STATE_WORDS {
        return Refusal::BadState.into();
    }
    if !tol_ok(tolerance) {
        return Refusal::BadTolerance.into();
    }
    if !codes_ok(axes) {
        return Refusal::BadAxis.into();
    }
    write_fresh(state, tolerance, axes);
    plain_reply(0)
}
