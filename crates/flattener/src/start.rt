// Starting.
ghost use Rattle.call_start.specs.Start.{start_spec};
ghost use Rattle.call_reply.specs.Replies.{StateIs};

use call_reply::Reply;
use call_start::start;

// Makes `state` a fresh one for this tolerance, by its bits, and this axis list.
#[unsafe(no_mangle)]
pub extern "C" fn flat_start(state: &mut [u64], tolerance: u64, axes: &[u64]) -> Reply
    ensures { StateIs (start_spec state.old tolerance axes.now) result state.new }
{
    start(state, tolerance, axes)
}
