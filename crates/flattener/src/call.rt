// Pushing a block, and closing.
ghost use Rattle.call_reply.specs.Replies.{PushIs};
ghost use Rattle.call_answer.specs.Close.{close_spec};
ghost use Rattle.call_answer.specs.Push.{push_spec};

use call_close::close;
use call_push::push;
use call_reply::Reply;

// Pushes a block: its rows go to the front of `rows`.
#[unsafe(no_mangle)]
pub extern "C" fn flat_push(
    state: &mut [u64],
    store: &mut [u64],
    rows: &mut [u64],
    row: &[u64],
) -> Reply
    ensures { PushIs (push_spec state.old store.old rows.old row.now) result state.new
        store.new rows.new }
{
    push(state, store, rows, row)
}

// Ends the run: a held spline is emitted.
#[unsafe(no_mangle)]
pub extern "C" fn flat_close(state: &mut [u64], store: &[u64], rows: &mut [u64]) -> Reply
    ensures { PushIs (close_spec state.old store.now rows.old) result state.new store.now
        rows.new }
{
    close(state, store, rows)
}
