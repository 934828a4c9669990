// Closing: a held spline is emitted.
#![tactic(auto)]

ghost use Rattle.std.specs.Prelude.{◌≡◌};
ghost use Rattle.saved_state.specs.State.{saved_check};
ghost use Rattle.call_reply.specs.Replies.{PushIs};
ghost use Rattle.call_answer.specs.Close.{close_spec};

use call_reply::{Reply, done_reply, plain_reply, too_few};
use layout::W_HELD;
use push_forget::forget;
use row_room::has_room;
use saved_check::saved_check;
use spline_put::put_emission;

// Ends a run whose state and store are in order.
fn close_checked(state: &mut [u64], store: &[u64], rows: &mut [u64]) -> Reply
    requires { saved_check state.old store.now ≡ 0 }
    ensures { PushIs (close_spec state.old store.now rows.old) result state.new store.now
        rows.new }
{
    if state[W_HELD] == 0 {
        return plain_reply(0);
    }
    let needed = put_emission(state, store, rows, 0);
    if !has_room(rows, needed) {
        return too_few(needed as u64);
    }
    forget(state);
    done_reply(needed as u64, 0, 0, 0)
}

// Ends the run: a held spline is emitted.
pub fn close(state: &mut [u64], store: &[u64], rows: &mut [u64]) -> Reply
    ensures { PushIs (close_spec state.old store.now rows.old) result state.new store.now
        rows.new }
{
    match saved_check(state, store) {
        Ok(()) => close_checked(state, store, rows),
        Err(refusal) => refusal.into(),
    }
}
