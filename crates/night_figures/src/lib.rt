// The figures of a try: what the words of its job's tally are more behind it than they were before.
#![tactic(auto)]

ghost use Rattle.std.specs.Prelude.{◌≡◌};
ghost use Rattle.night_figures.specs.Figures.{capped, since, figure_of};

use night_passed::word_of;
use tally_words::JOB_WORDS;

// Figures are counted up to this one.
const MOST: u64 = 9999999999;

#[tactic(auto, unfolding(crate::specs::Figures::capped))]
fn capped(n: u64) -> u64
    ensures { result ≡ capped n }
{
    n.min(MOST)
}

#[tactic(auto, unfolding(crate::specs::Figures::since))]
fn since(before: u64, after: u64) -> u64
    ensures { result ≡ since before after }
{
    after.saturating_sub(before)
}

// What a try added to word k of its job's slot.
#[tactic(auto, unfolding(crate::specs::Figures::figure_of))]
pub fn figure_of(before: &[u64], after: &[u64], k: usize) -> u64
    ensures { result ≡ figure_of before.now after.now k }
{
    if k < JOB_WORDS {
        capped(since(word_of(before, k), word_of(after, k)))
    } else {
        0
    }
}
