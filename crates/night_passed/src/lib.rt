// Whether a try passed, by the words of its job's tally.
#![tactic(auto)]

ghost use Rattle.std.specs.Prelude.{◌≡◌, ◌+◌, ◌<◌, get_or};
ghost use Rattle.tally_words.specs.Words.{w_slots, job_words};
ghost use Rattle.night_passed.specs.Passed.{passed_of};

use row_cells::has_bit;
use tally_words::{B_FINAL, W_SLOTS, W_TRY};

// Word k of the first slot, or 0 where there is none.
pub fn word_of(tally: &[u64], k: usize) -> u64
    requires { k < job_words }
    ensures { result ≡ get_or tally.now (w_slots + k) 0 }
{
    tally.get(W_SLOTS + k).copied().unwrap_or(0)
}

// Whether a try passed, by the tally behind it.
#[tactic(auto, unfolding(crate::specs::Passed::passed_of))]
pub fn has_passed(closed: bool, after: &[u64]) -> bool
    ensures { result ≡ passed_of closed after.now }
{
    closed && has_bit(word_of(after, W_TRY), B_FINAL)
}
