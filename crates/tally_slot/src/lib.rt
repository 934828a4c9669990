// The slot of a job, and whether its figures stay within 64 bits.
#![tactic(auto)]

ghost use Rattle.std.specs.Prelude.{◌≡◌, ◌+◌, ◌^◌, ◌<◌, ◌≤◌, length, ltb};
ghost use Rattle.floats.specs.Lists.{all};
ghost use Rattle.tally_words.specs.Words.{most_jobs, job_words, tally_words, figures};
ghost use Rattle.tally_slot.specs.Slots.{seek, is_job, old_word, figure_fits};

use tally_call::Call;
use tally_figure::figure_of;
use tally_words::{FIGURES, W_JOB, slot_at};

// The first of n slots that is this job's; n where none is (9.24).
pub fn find(tally: &[u64], job: u64, n: usize) -> usize
    requires { (length tally.now ≡ tally_words) × (n ≤ most_jobs) }
    ensures { result ≡ seek (is_job tally.now job) n }
{
    for i in 0..n {
        if tally[slot_at(i) + W_JOB] == job {
            return i;
        }
    }
    n
}

// Word k of the slot that begins at word `start`, 0 where the job has none yet.
#[tactic(auto, unfolding(crate::specs::Slots::old_word))]
pub fn old_word(tally: &[u64], start: usize, known: bool, k: usize) -> u64
    requires { (k < job_words) × (start + job_words ≤ length tally.now) }
    ensures { result ≡ old_word tally.now start known k }
{
    if known { tally[start + k] } else { 0 }
}

// Whether a figure x stays within 64 bits where y is added to it.
fn sum_fits(x: u64, y: u64) -> bool
    ensures { result ≡ ltb (x + y) (2 ^ 64) }
{
    x <= u64::MAX - y
}

pub fn figures_fit(tally: &[u64], start: usize, known: bool, c: Call) -> bool
    requires { start + job_words ≤ length tally.now }
    ensures { result ≡ all figures (figure_fits tally.now start known c) }
{
    for k in 0..FIGURES {
        if !sum_fits(old_word(tally, start, known, k + 1), figure_of(c, k + 1)) {
            return false;
        }
    }
    true
}
