// Whether the words of a saved state are in order: refusal 9.
#![tactic(auto)]

ghost use Rattle.std.specs.Prelude.{◌≡◌};
ghost use Rattle.saved_state.specs.State.{from_known, from_motion, state_ok};
ghost use Rattle.saved_state.specs.Asks.{Listed};

use layout::{W_KNOWN, W_MOTION, W_PLANE, W_START, W_TOLERANCE, is_state};
use motion::LAST_MOTION;
use row_cells::{PLANE_XY, PLANE_YZ};
use saved_held::{between, ok_from_degree};
use saved_points::point_ok;
use saved_state::state::{axes_ok, tol_ok};

fn ok_from_known(state: &[u64]) -> bool
    requires { Listed state.now }
    ensures { result ≡ from_known state.now }
{
    point_ok(state, W_KNOWN) && point_ok(state, W_START) && ok_from_degree(state)
}

fn ok_from_motion(state: &[u64]) -> bool
    requires { Listed state.now }
    ensures { result ≡ from_motion state.now }
{
    between(1, state[W_MOTION], LAST_MOTION)
        && between(PLANE_XY, state[W_PLANE], PLANE_YZ)
        && ok_from_known(state)
}

#[tactic(auto, unfolding(saved_state::specs::State::state_ok))]
pub fn state_ok(state: &[u64]) -> bool
    ensures { result ≡ state_ok state.now }
{
    is_state(state) && tol_ok(state[W_TOLERANCE]) && axes_ok(state) && ok_from_motion(state)
}
