// Whether the words of a tally are in order, and the jobs that passed.
#![tactic(auto)]

ghost use Rattle.std.specs.Prelude.{◌≡◌, ℕ, ◌<◌, ◌≤◌, length};
ghost use Rattle.floats.specs.Lists.{all};
ghost use Rattle.tally_words.specs.Words.{most_jobs, tally_words, jobs_in, try_at, try_ok, tally_ok, jobs_with};

use row_cells::has_bit;
use tally_words::{MOST_JOBS, TALLY_WORDS, W_JOBS, number_of, try_at, try_ok};

fn tries_ok(tally: &[u64], n: usize) -> bool
    requires { (length tally.now ≡ tally_words) × (n ≤ most_jobs) }
    ensures { result ≡ all n (λ (i : ℕ). try_ok (try_at tally.now i)) }
{
    for i in 0..n {
        if !try_ok(try_at(tally, i)) {
            return false;
        }
    }
    true
}

// Whether words are a tally (9.23).
#[tactic(auto, unfolding(tally_words::specs::Words::tally_ok))]
pub fn tally_ok(tally: &[u64]) -> bool
    ensures { result ≡ tally_ok tally.now }
{
    if tally.len() != TALLY_WORDS {
        return false;
    }
    let n = tally[W_JOBS] as usize;
    n <= MOST_JOBS && tries_ok(tally, n)
}

// How many slots have bit b in their try word.
pub fn jobs_with(tally: &[u64], b: u64) -> u64
    requires { (length tally.now ≡ tally_words) × ((jobs_in tally.now ≤ most_jobs) × (b < 64)) }
    ensures { result ≡ jobs_with tally.now b }
{
    let n = tally[W_JOBS] as usize;
    let mut r: u64 = 0;
    for i in 0..n {
        r += number_of(has_bit(try_at(tally, i), b));
    }
    r
}
