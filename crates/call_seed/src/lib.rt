// Seeding a position.
#![tactic(auto)]

ghost use Rattle.call_seed.specs.Seed.{seed_spec};
ghost use Rattle.call_reply.specs.Replies.{StateIs};

use call_reply::{Reply, plain_reply};
use layout::LAST_CODE;
use refusal::Refusal;
use row_numbers::within_range;
use saved_state::state::{is_geometric, place};
use saved_words::state_ok;

// Makes the number whose bits are `value` the position of an axis.
pub fn seed(state: &mut [u64], axis: u64, value: u64) -> Reply
    ensures { StateIs (seed_spec state.old axis value) result state.new }
{
    if !state_ok(state) {
        return Refusal::BadState.into();
    }
    if axis > LAST_CODE as u64 {
        return Refusal::BadAxis.into();
    }
    if !within_range(value) {
        return Refusal::BadNumber.into();
    }
    let listed = is_geometric(state, axis);
    if listed {
        place(state, axis as usize, value);
    }
    plain_reply(0)
}
