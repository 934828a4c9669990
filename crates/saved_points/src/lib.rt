// Whether a point of a saved state is in order: its axes geometric, its numbers in range.
#![tactic(auto)]

ghost use Rattle.std.specs.Prelude.{◌≡◌, true, ◌<◌, ◌≤◌, get_or};
ghost use Rattle.floats.specs.Lists.{all};
ghost use Rattle.layout.specs.Layout.{axis_codes, axis_masks, w_start};
ghost use Rattle.row_cells.specs.Bits.{has};
ghost use Rattle.saved_state.specs.State.{point_at_ok, point_ok};
ghost use Rattle.saved_state.specs.Asks.{Listed, PointOf};

use layout::AXIS_MASKS;
use row_cells::{has_bit, lowest_bit, other_bits};
use row_numbers::within_range;
use saved_state::state::geometric_mask;

// Whether axis k of the point at word w is geometric, by their mask, and its number in range.
fn point_at_ok(state: &[u64], w: usize, gs: u64, k: usize) -> bool
    requires { (PointOf state.now w gs) × ((has (get_or state.now w 0) k ≡ true) × (k < axis_codes)) }
    ensures { result ≡ point_at_ok state.now w k }
{
    has_bit(gs, k as u64) && within_range(state[w + 1 + k])
}

// Whether the axes that the point at word w has are in order. The other words are not read.
fn point_axes_ok(state: &[u64], w: usize, gs: u64) -> bool
    requires { (PointOf state.now w gs) × (get_or state.now w 0 < axis_masks) }
    ensures { result ≡ all axis_codes (point_at_ok state.now w) }
{
    // while: over the bits that are set, which no range counts
    let mut rest = state[w];
    while rest != 0 {
        if !point_at_ok(state, w, gs, lowest_bit(rest)) {
            return false;
        }
        rest = other_bits(rest);
    }
    true
}

// Whether the point at word w is in order: its mask, then each axis that it has.
#[tactic(auto, unfolding(saved_state::specs::State::point_ok))]
pub fn point_ok(state: &[u64], w: usize) -> bool
    requires { (Listed state.now) × (w ≤ w_start) }
    ensures { result ≡ point_ok state.now w }
{
    state[w] == 0 || (state[w] < AXIS_MASKS && point_axes_ok(state, w, geometric_mask(state)))
}
