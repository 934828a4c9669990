// The end of a push, where nothing can refuse any more.
#![tactic(auto)]

ghost use Rattle.std.specs.Prelude.{◌≡◌, cond};
ghost use Rattle.call_reply.specs.Replies.{PushIs};
ghost use Rattle.push_settle.specs.Settle.{Settles, settled};

use arc_rows::Plan;
use call_reply::{Reply, done_reply};
use layout::ROW_WORDS;
use push_after::{push_state, push_store};
use push_resolve::Resolved;
use push_write::write_own;

fn warning_of(news: bool, warning: u64) -> u64
    ensures { result ≡ cond news 7 warning }
{
    if news { 7 } else { warning }
}

// The end of a push, where nothing can refuse any more: writes a planned block's rows after the first ones, and leaves the
// block in the state and the store.
pub fn settle(
    state: &mut [u64],
    store: &mut [u64],
    rows: &mut [u64],
    row: &[u64],
    b: Resolved,
    first: usize,
    plan: Plan,
) -> Reply
    requires { Settles state.old store.old row.now b rows.old first plan }
    ensures { PushIs (settled state.old store.old rows.old row.now first plan) result state.new
        store.new rows.new }
{
    let needed = first + plan.count;
    let warning = warning_of(b.news, plan.warning);
    write_own(rows, first * ROW_WORDS, state, row, b, plan);
    push_store(store, row, b);
    push_state(state, row, b);
    done_reply(needed as u64, warning, plan.wanted, plan.held)
}
