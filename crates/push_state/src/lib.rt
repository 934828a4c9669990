// A block that is buffered, in the state: it opens the curve or goes on with it, sets the degree and is counted.
#![tactic(auto)]

ghost use Rattle.std.specs.Prelude.{◌≡◌, ◌≤◌, min, max, length};
ghost use Rattle.floats.specs.Numbers.{num};
ghost use Rattle.whole.specs.Whole.{trunc_count};
ghost use Rattle.layout.specs.Layout.{row_words, state_words, most_held, most_degree, c_sd};
ghost use Rattle.row_cells.specs.Row.{number};
ghost use Rattle.saved_state.specs.State.{held};
ghost use Rattle.push_state.specs.Pushed.{degree_with, buffered};

use floats::of_bits;
use layout::{C_SD, MOST_DEGREE, R_CELLS, R_PRESENT, W_DEGREE, W_HELD};
use push_start::open_first;
use row_cells::has_bit;
use whole::trunc_count;

// The degree that SD says, by its bits.
fn degree_of(x: u64) -> u64
    ensures { result ≡ max 1 (min most_degree (trunc_count (num x))) }
{
    trunc_count(of_bits(x)).clamp(1, MOST_DEGREE)
}

#[tactic(auto, unfolding(crate::specs::Pushed::degree_with, row_cells::specs::Row::number, row_cells::specs::Row::cell))]
fn degree_with(power: u64, row: &[u64]) -> u64
    requires { length row.now ≡ row_words }
    ensures { result ≡ degree_with power (number row.now c_sd) }
{
    if has_bit(row[R_PRESENT], C_SD as u64) {
        degree_of(row[R_CELLS + C_SD])
    } else {
        power
    }
}

pub fn buffer(state: &mut [u64], row: &[u64])
    requires { (length state.old ≡ state_words) × ((length row.now ≡ row_words) × (held state.old ≤ most_held)) }
    ensures { state.new ≡ buffered state.old row.now }
{
    let n = state[W_HELD];
    open_first(state);
    let power = state[W_DEGREE];
    state[W_DEGREE] = degree_with(power, row);
    state[W_HELD] = n + 1;
}
