// Pushing a block: what it is due, the held spline that goes out before it, its own rows, the store, the state, the reply.
#![tactic(auto)]

ghost use Rattle.std.specs.Prelude.{◌≡◌, ◌≤◌};
ghost use Rattle.spline_write.specs.Emits.{most_own};
ghost use Rattle.saved_state.specs.State.{saved_check};
ghost use Rattle.call_reply.specs.Replies.{PushIs};
ghost use Rattle.spline_put.specs.Emitted.{Put};
ghost use Rattle.call_push.specs.Before.{before};
ghost use Rattle.call_answer.specs.Push.{push_spec};
ghost use Rattle.push_settle.specs.Settle.{Passed};

use call_reply::{Reply, too_few};
use push_check::check_push;
use push_resolve::Resolved;
use push_rows::plan_own;
use push_settle::settle;
use row_room::has_room;
use spline_put::put_emission;

// Counts the rows that go out before the block's own and, where they and `own` more have room, writes them to the front
// of `rows`.
fn put_before(state: &[u64], store: &[u64], rows: &mut [u64], emits: bool, own: usize) -> usize
    requires { (saved_check state.now store.now ≡ 0) × (own ≤ most_own) }
    ensures { Put own (before emits state.now store.now) rows.old result rows.new }
{
    if emits {
        put_emission(state, store, rows, own)
    } else {
        0
    }
}

// Pushes a block that has passed every check but that of room.
fn push_block(
    state: &mut [u64],
    store: &mut [u64],
    rows: &mut [u64],
    row: &[u64],
    b: Resolved,
) -> Reply
    requires { Passed state.old store.old row.now b }
    ensures { PushIs (push_spec state.old store.old rows.old row.now) result state.new
        store.new rows.new }
{
    let plan = plan_own(state, row, b);
    let first = put_before(state, store, rows, b.emits, plan.count);
    let needed = first + plan.count;
    if !has_room(rows, needed) {
        return too_few(needed as u64);
    }
    settle(state, store, rows, row, b, first, plan)
}

// Pushes a block: its rows go to the front of `rows`.
pub fn push(state: &mut [u64], store: &mut [u64], rows: &mut [u64], row: &[u64]) -> Reply
    ensures { PushIs (push_spec state.old store.old rows.old row.now) result state.new
        store.new rows.new }
{
    match check_push(state, store, row) {
        Ok(b) => push_block(state, store, rows, row, b),
        Err(refusal) => refusal.into(),
    }
}
