// The state and the store after a block.
#![tactic(auto)]

ghost use Rattle.std.specs.Prelude.{◌≡◌, ◌≤◌};
ghost use Rattle.layout.specs.Layout.{most_held};
ghost use Rattle.saved_state.specs.State.{held};
ghost use Rattle.push_resolve.specs.Asks.{Block};
ghost use Rattle.push_resolve.specs.Resolved.{resolved};
ghost use Rattle.push_state.specs.Pushed.{push_state};
ghost use Rattle.push_state.specs.Stored.{Stores, store_with};

use layout::{R_MOTION, ROW_WORDS};
use motion::is_spline;
use push_resolve::Resolved;
use push_steps::{buffer_if, forget_if, set_modal, track, warn_if};
use row_put::put_row;

// The state after the block.
pub fn push_state(state: &mut [u64], row: &[u64], b: Resolved)
    requires { (Block state.old row.now) × ((b ≡ resolved state.old row.now) × (held state.old ≤ most_held)) }
    ensures { state.new ≡ push_state state.old row.now }
{
    forget_if(state, b.emits);
    set_modal(state, b.motion, b.plane);
    buffer_if(state, row, is_spline(b.kind));
    warn_if(state, row[R_MOTION], b.news);
    track(state, row, b.axes);
}

// The store after the block.
pub fn push_store(store: &mut [u64], row: &[u64], b: Resolved)
    requires { Stores b store.old row.now }
    ensures { store.new ≡ store_with b store.old row.now }
{
    if is_spline(b.kind) {
        put_row(store, b.kept as usize * ROW_WORDS, row);
    }
}
