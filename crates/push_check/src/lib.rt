// What a block is refused for at a state, or the block resolved.
#![tactic(auto)]

ghost use Rattle.std.specs.Prelude.{◌≡◌, ◌&&◌, ◌/◌, min, leb, length};
ghost use Rattle.layout.specs.Layout.{row_words, most_held};
ghost use Rattle.motion.specs.Motion.{spline_kind};
ghost use Rattle.refusal.specs.Codes.{by_code};
ghost use Rattle.push_check.specs.Due.{due};

use layout::{MOST_HELD, whole_rows};
use motion::is_spline;
use push_resolve::{Resolved, resolve};
use refusal::Refusal;
use row_check::check_row;
use saved_check::saved_check;

// How many blocks a store takes.
fn block_room(store: &[u64]) -> u64
    ensures { result ≡ min most_held (length store.now / row_words) }
{
    MOST_HELD.min(whole_rows(store) as u64)
}

// Whether the block would be buffered and has no room.
fn is_full(store: &[u64], b: Resolved) -> bool
    ensures { result ≡ (spline_kind b.kind && leb (min most_held (length store.now / row_words)) b.kept) }
{
    is_spline(b.kind) && block_room(store) <= b.kept
}

// The refusal that a push is due, room for rows apart, or its block.
#[tactic(auto, unfolding(crate::specs::Due::due, crate::specs::Refusal::push_check))]
pub fn check_push(state: &[u64], store: &[u64], row: &[u64]) -> Result<Resolved, Refusal>
    ensures { by_code result ≡ due state.now store.now row.now }
{
    saved_check(state, store)?;
    check_row(row)?;
    let b = resolve(state, row);
    if is_full(store, b) {
        return Err(Refusal::StoreFull);
    }
    Ok(b)
}
