// A call noted in a tally: the slot's words written, and the jobs counted.
#![tactic(auto)]

ghost use Rattle.std.specs.Prelude.{◌≡◌, true, ◌+◌, ◌^◌, ◌<◌, ◌≤◌, length};
ghost use Rattle.floats.specs.Lists.{upto, spliced, all};
ghost use Rattle.call_reply.specs.Replies.{StateIs};
ghost use Rattle.tally_words.specs.Words.{most_jobs, w_job, w_try, job_words, figures, tally_ok};
ghost use Rattle.tally_call.specs.Calls.{figure};
ghost use Rattle.tally_slot.specs.Slots.{figure_fits, new_word, slot_after, jobs_after, counted};

use call_reply::{Reply, plain_reply};
use refusal::Refusal;
use tally_call::Call;
use tally_figure::figure_of;
use tally_slot::{figures_fit, find, old_word};
use tally_try::try_after;
use tally_words::{JOB_WORDS, MOST_JOBS, W_JOB, W_JOBS, W_TRY, slot_at};

// Word k of the job's slot after the call.
#[tactic(auto, unfolding(tally_slot::specs::Slots::new_word))]
fn new_word(job: u64, c: Call, k: usize, old: u64) -> u64
    requires { (k ≡ w_job → ⊥) → (k ≡ w_try → ⊥) → old + figure c k < 2 ^ 64 }
    ensures { result ≡ new_word job c k old }
{
    match k {
        W_JOB => job,
        W_TRY => try_after(old, c),
        _ => old + figure_of(c, k),
    }
}

fn write_slot(tally: &mut [u64], start: usize, known: bool, job: u64, c: Call)
    requires { (start + job_words ≤ length tally.old) × (all figures (figure_fits tally.old start known c) ≡ true) }
    ensures { tally.new ≡ spliced tally.old start (upto (slot_after tally.old start known job c) job_words) }
{
    for k in 0..JOB_WORDS {
        tally[start + k] = new_word(job, c, k, old_word(tally, start, known, k));
    }
}

fn jobs_after(i: usize, n: usize) -> u64
    requires { i < most_jobs }
    ensures { result ≡ jobs_after i n }
{
    n.max(i + 1) as u64
}

// Counts a call, where there is room for its job and its figures (9.6, 9.24).
pub fn note(tally: &mut [u64], job: u64, c: Call) -> Reply
    requires { tally_ok tally.old ≡ true }
    ensures { StateIs (counted tally.old job c) result tally.new }
{
    let n = tally[W_JOBS] as usize;
    let i = find(tally, job, n);
    if i >= MOST_JOBS {
        return Refusal::TallyFull.into();
    }
    let start = slot_at(i);
    if !figures_fit(tally, start, i < n, c) {
        return Refusal::TallyFull.into();
    }
    write_slot(tally, start, i < n, job, c);
    tally[W_JOBS] = jobs_after(i, n);
    plain_reply(0)
}
