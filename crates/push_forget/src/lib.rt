// What a state forgets when its curve ends.
#![tactic(auto)]

ghost use Rattle.std.specs.Prelude.{◌≡◌, ℕ, ◌+◌, length};
ghost use Rattle.floats.specs.Lists.{upto, spliced};
ghost use Rattle.layout.specs.Layout.{axis_codes, w_start, state_words};
ghost use Rattle.push_start.specs.Opened.{forgotten};

use layout::{AXIS_CODES, W_HELD, W_START};

fn zero_start(state: &mut [u64])
    requires { length state.old ≡ state_words }
    ensures { state.new ≡ spliced state.old w_start (upto (λ (k : ℕ). 0) (axis_codes + 1)) }
{
    state[W_START..W_START + 1 + AXIS_CODES].fill(0);
}

// An emission forgets the curve start and the blocks.
#[tactic(auto, unfolding(push_start::specs::Opened::forgotten))]
pub fn forget(state: &mut [u64])
    requires { length state.old ≡ state_words }
    ensures { state.new ≡ forgotten state.old }
{
    zero_start(state);
    state[W_HELD] = 0;
}
