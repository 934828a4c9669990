// Seeding a position.
ghost use Rattle.call_seed.specs.Seed.{seed_spec};
ghost use Rattle.call_reply.specs.Replies.{StateIs};

use call_reply::Reply;
use call_seed::seed;

// Makes the number whose bits are `value` the position of an axis.
#[unsafe(no_mangle)]
pub extern "C" fn flat_seed(state: &mut [u64], axis: u64, value: u64) -> Reply
    ensures { StateIs (seed_spec state.old axis value) result state.new }
{
    seed(state, axis, value)
}
