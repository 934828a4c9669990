// Whether the words of a saved state about a held spline are in order.
#![tactic(auto)]

ghost use Rattle.std.specs.Prelude.{◌≡◌, ◌&&◌, length, leb};
ghost use Rattle.layout.specs.Layout.{state_words};
ghost use Rattle.saved_state.specs.State.{held_ok, from_degree};

use layout::{MOST_DEGREE, MOST_HELD, W_DEGREE, W_HELD, W_MOTION};
use motion::{is_spline, kind_of};

#[tactic(auto, unfolding(saved_state::specs::State::held_ok, motion::specs::Motion::is_spline))]
fn held_ok(state: &[u64]) -> bool
    requires { length state.now ≡ state_words }
    ensures { result ≡ held_ok state.now }
{
    state[W_HELD] <= MOST_HELD && (state[W_HELD] == 0 || is_spline(kind_of(state[W_MOTION])))
}

pub fn between(low: u64, x: u64, high: u64) -> bool
    ensures { result ≡ (leb low x && leb x high) }
{
    low <= x && x <= high
}

pub fn ok_from_degree(state: &[u64]) -> bool
    requires { length state.now ≡ state_words }
    ensures { result ≡ from_degree state.now }
{
    between(1, state[W_DEGREE], MOST_DEGREE) && held_ok(state)
}
