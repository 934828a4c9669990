// How programs of row text start the flattener: axes X Y Z, no seed.
#![tactic(auto)]

ghost use Rattle.std.specs.Prelude.{◌≡◌};
ghost use Rattle.call_reply.specs.Replies.{StateIs};
ghost use Rattle.call_start.specs.Start.{start_spec};
ghost use Rattle.csv_start.specs.Given.{tolerance, axes};

use call_reply::Reply;
use layout::STATE_WORDS;

// 0.1
const TOLERANCE: u64 = 0x3fb9_9999_9999_999a;

// A start at a tolerance, given by its bits.
pub fn started(state: &mut [u64], tolerance: u64) -> Reply
    ensures { StateIs (start_spec state.old tolerance axes) result state.new }
{
    call_start::start(state, tolerance, &[0, 1, 2])
}

// The start of flatcsv, at tolerance 0.1.
pub fn start(state: &mut [u64; STATE_WORDS])
    ensures { state.new ≡ (start_spec state.old tolerance axes).state }
{
    started(state, TOLERANCE);
}
