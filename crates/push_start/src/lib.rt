// The curve start in the state: the first block that is buffered opens it.
#![tactic(auto)]

ghost use Rattle.std.specs.Prelude.{◌≡◌, cond, ℕ, ◌+◌, ◌<◌, length, eqb};
ghost use Rattle.std.proofs.Math.Option.{get_or};
ghost use Rattle.floats.specs.Lists.{upto, spliced};
ghost use Rattle.layout.specs.Layout.{axis_codes, w_start, state_words};
ghost use Rattle.saved_state.specs.State.{held, position};
ghost use Rattle.push_start.specs.Opened.{opened};

use layout::{AXIS_CODES, W_DEGREE, W_HELD, W_KNOWN, W_START};
use row_cells::has_bit;
use saved_state::state::PLAIN_DEGREE;

// The position of axis k, zero where it is not known.
#[tactic(auto, unfolding(saved_state::specs::State::point_word))]
fn known_word(state: &[u64], k: usize) -> u64
    requires { (length state.now ≡ state_words) × (k < axis_codes) }
    ensures { result ≡ get_or (position state.now k) 0 }
{
    if has_bit(state[W_KNOWN], k as u64) {
        state[W_KNOWN + 1 + k]
    } else {
        0
    }
}

fn copy_positions(state: &mut [u64])
    requires { length state.old ≡ state_words }
    ensures { state.new ≡ spliced state.old (w_start + 1)
        (upto (λ (k : ℕ). get_or (position state.old k) 0) axis_codes) }
{
    for k in 0..AXIS_CODES {
        state[W_START + 1 + k] = known_word(state, k);
    }
}

// The first held block saves the positions as curve start and sets the plain degree.
fn open_curve(state: &mut [u64])
    requires { length state.old ≡ state_words }
    ensures { state.new ≡ opened state.old }
{
    state[W_START] = state[W_KNOWN];
    copy_positions(state);
    state[W_DEGREE] = PLAIN_DEGREE;
}

// Opens the curve unless a block is held already.
pub fn open_first(state: &mut [u64])
    requires { length state.old ≡ state_words }
    ensures { state.new ≡ cond (eqb (held state.old) 0) (opened state.old) state.old }
{
    if state[W_HELD] == 0 {
        open_curve(state);
    }
}
