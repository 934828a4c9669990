// The flattener's four calls for programs in C, each the library's with its clause.
// The C interface needs both: the archive for C is built of this crate, and programs in Rattle call the crate flattener.
#![tactic(auto)]

ghost use Rattle.call_reply.specs.Replies.{StateIs, PushIs};
ghost use Rattle.call_answer.specs.Close.{close_spec};
ghost use Rattle.call_answer.specs.Push.{push_spec};
ghost use Rattle.call_seed.specs.Seed.{seed_spec};
ghost use Rattle.call_start.specs.Start.{start_spec};

use call_reply::Reply;

// Makes `state` a fresh one for this tolerance, by its bits, and this axis list.
#[unsafe(no_mangle)]
pub extern "C" fn flat_start(state: &mut [u64], tolerance: u64, axes: &[u64]) -> Reply
    ensures { StateIs (start_spec state.old tolerance axes.now) result state.new }
{
    flattener::start::flat_start(state, tolerance, axes)
}

// Makes the number whose bits are `value` the position of an axis.
#[unsafe(no_mangle)]
pub extern "C" fn flat_seed(state: &mut [u64], axis: u64, value: u64) -> Reply
    ensures { StateIs (seed_spec state.old axis value) result state.new }
{
    flattener::seed::flat_seed(state, axis, value)
}

// Pushes a block: its rows go to the front of `rows`.
#[unsafe(no_mangle)]
pub extern "C" fn flat_push(
    state: &mut [u64],
    store: &mut [u64],
    rows: &mut [u64],
    row: &[u64],
) -> Reply
    ensures { PushIs (push_spec state.old store.old rows.old row.now) result state.new
        store.new rows.new }
{
    flattener::call::flat_push(state, store, rows, row)
}

// Ends the run: a held spline is emitted.
#[unsafe(no_mangle)]
pub extern "C" fn flat_close(state: &mut [u64], store: &[u64], rows: &mut [u64]) -> Reply
    ensures { PushIs (close_spec state.old store.now rows.old) result state.new store.now
        rows.new }
{
    flattener::call::flat_close(state, store, rows)
}
