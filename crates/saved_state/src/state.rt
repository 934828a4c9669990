// The words of a saved state: its tolerance, its axis list, a position that becomes known.
ghost use Rattle.std.specs.Prelude.{◌≡◌, ◌&&◌, not, ◌<◌, length, leb};
ghost use Rattle.floats.specs.Lists.{member};
ghost use Rattle.layout.specs.Layout.{axis_codes, last_code, state_words};
ghost use Rattle.row_cells.specs.Bits.{has};
ghost use Rattle.saved_state.specs.State.{tol_ok, codes_ok, axes_ok, geometric, geometric_mask, placed};
ghost use Rattle.saved_state.specs.Asks.{Listed};

use layout::{AXIS_CODES, LAST_CODE, LIST_CODES, W_AXES, W_AXIS_COUNT, W_KNOWN};
use row_cells::{has_bit, set_bit};

// The degree of a curve until SD sets it.
pub const PLAIN_DEGREE: u64 = 3;

// The bits of infinity: a number's below them are finite.
const INFINITY: u64 = 0x7FF0_0000_0000_0000;

#[tactic(auto, unfolding(crate::specs::State::tol_ok))]
pub fn tol_ok(x: u64) -> bool
    ensures { result ≡ tol_ok x }
{
    0 < x && x < INFINITY
}

// Whether a code is one, and not among those seen.
fn is_new(seen: u64, code: u64) -> bool
    ensures { result ≡ (leb code last_code && not (has seen code)) }
{
    code <= LAST_CODE as u64 && !has_bit(seen, code)
}

pub fn codes_ok(axes: &[u64]) -> bool
    ensures { result ≡ codes_ok axes.now }
{
    if axes.len() > LIST_CODES {
        return false;
    }
    let mut seen: u64 = 0;
    for code in axes {
        if !is_new(seen, *code) {
            return false;
        }
        seen = set_bit(seen, *code);
    }
    true
}

#[tactic(auto, unfolding(crate::specs::State::axes_ok))]
pub fn axes_ok(state: &[u64]) -> bool
    requires { length state.now ≡ state_words }
    ensures { result ≡ axes_ok state.now }
{
    let n = state[W_AXIS_COUNT];
    n <= LIST_CODES as u64 && codes_ok(&state[W_AXES..W_AXES + n as usize])
}

// The mask of the geometric axes.
pub fn geometric_mask(state: &[u64]) -> u64
    requires { Listed state.now }
    ensures { result ≡ geometric_mask state.now }
{
    row_axes::axes_mask(&state[W_AXES..W_AXES + state[W_AXIS_COUNT] as usize])
}

// Whether axis k is a geometric one.
pub fn is_geometric(state: &[u64], k: u64) -> bool
    requires { Listed state.now }
    ensures { result ≡ member k (geometric state.now) }
{
    k < AXIS_CODES as u64 && has_bit(geometric_mask(state), k)
}

// Axis k is known at x from now on.
#[tactic(auto, unfolding(crate::specs::State::placed))]
pub fn place(state: &mut [u64], k: usize, x: u64)
    requires { (length state.old ≡ state_words) × (k < axis_codes) }
    ensures { state.new ≡ placed state.old k x }
{
    let p = state[W_KNOWN];
    state[W_KNOWN] = set_bit(p, k as u64);
    state[W_KNOWN + 1 + k] = x;
}
