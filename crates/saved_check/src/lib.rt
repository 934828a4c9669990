// Whether a saved state and the rows that its store holds are in order: refusals 9 and 8.
#![tactic(auto)]

ghost use Rattle.std.specs.Prelude.{◌≡◌};
ghost use Rattle.refusal.specs.Codes.{code_of};
ghost use Rattle.saved_state.specs.State.{saved_check};

use layout::{ROW_WORDS, W_HELD};
use refusal::Refusal;
use saved_rows::held_rows_ok;
use saved_words::state_ok;

// The refusal that the saved state or its store is due.
#[tactic(auto, unfolding(saved_state::specs::State::saved_check, saved_state::specs::State::store_ok))]
pub fn saved_check(state: &[u64], store: &[u64]) -> Result<(), Refusal>
    ensures { code_of result ≡ saved_check state.now store.now }
{
    if !state_ok(state) {
        return Err(Refusal::BadState);
    }
    let n = state[W_HELD] as usize;
    if store.len() < n * ROW_WORDS {
        return Err(Refusal::StoreTooShort);
    }
    if !held_rows_ok(state, store, n) {
        return Err(Refusal::BadState);
    }
    Ok(())
}
