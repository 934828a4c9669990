// Whether the rows that a store holds could be pushed, and go with the state's motion.
#![tactic(auto)]

ghost use Rattle.std.specs.Prelude.{◌≡◌, ◌+◌, ◌*◌, ◌≤◌, length, eqb};
ghost use Rattle.floats.specs.Lists.{all};
ghost use Rattle.layout.specs.Layout.{row_words, state_words};
ghost use Rattle.row_check.specs.Check.{row_check};
ghost use Rattle.saved_state.specs.State.{row_fits, held_row_ok};

use layout::{R_MOTION, ROW_WORDS, W_MOTION};
use row_check::shape_ok;
use row_numbers::{numbers_ok, turn_ok};

// Whether a row could be pushed. The checks one by one, as the compiler then joins them to the loop over the held rows.
#[tactic(auto, unfolding(row_check::specs::Check::row_check, row_check::specs::Check::shape_ok))]
fn row_ok(row: &[u64]) -> bool
    ensures { result ≡ eqb (row_check row.now) 0 }
{
    shape_ok(row) && numbers_ok(row) && turn_ok(row)
}

// Whether a row could be pushed, and has no motion or this one.
fn row_fits(row: &[u64], motion: u64) -> bool
    ensures { result ≡ row_fits motion row.now }
{
    row_ok(row) && (row[R_MOTION] == 0 || row[R_MOTION] == motion)
}

fn held_row_ok(state: &[u64], store: &[u64], i: usize) -> bool
    requires { (length state.now ≡ state_words) × (i * row_words + row_words ≤ length store.now) }
    ensures { result ≡ held_row_ok state.now store.now i }
{
    let at = i * ROW_WORDS;
    row_fits(&store[at..at + ROW_WORDS], state[W_MOTION])
}

// Whether the first n rows of the store fit the state.
pub fn held_rows_ok(state: &[u64], store: &[u64], n: usize) -> bool
    requires { (length state.now ≡ state_words) × (n * row_words ≤ length store.now) }
    ensures { result ≡ all n (held_row_ok state.now store.now) }
{
    for i in 0..n {
        if !held_row_ok(state, store, i) {
            return false;
        }
    }
    true
}
