// The words of a tally, each named once as specs/Words has them; when words are no tally; counting by their bits.
#![tactic(auto)]

ghost use Rattle.std.specs.Prelude.{◌≡◌, ◌||◌, ◌<◌, ◌≤◌, length};
ghost use Rattle.row_cells.specs.Bits.{has};
ghost use Rattle.tally_words.specs.Words.{most_jobs, b_first, b_final, tally_words, slot_at, try_at, try_ok, empty_tally, bit};

use row_cells::has_bit;

pub const MOST_JOBS: usize = 64;

pub const MOST_WARNING: usize = 15;

pub const MOST_CODE: usize = 31;

// Words of a slot.
pub const W_JOB: usize = 0;

pub const W_BLOCKS: usize = W_JOB + 1;

pub const W_ROWS: usize = W_BLOCKS + 1;

pub const W_MARKED: usize = W_ROWS + 1;

pub const W_TURNED: usize = W_MARKED + MOST_WARNING;

// The figures are the words 1 to this one.
pub const FIGURES: usize = W_TURNED + MOST_CODE;

pub const W_TRY: usize = FIGURES + 1;

pub const JOB_WORDS: usize = W_TRY + 1;

// Words of a tally.
pub const W_JOBS: usize = 0;

pub const W_SLOTS: usize = W_JOBS + 1;

pub const TALLY_WORDS: usize = W_SLOTS + MOST_JOBS * JOB_WORDS;

// Bits of the try word.
pub const B_CLOSED: u64 = 0;

pub const B_FIRST: u64 = 1;

pub const B_FINAL: u64 = 2;

pub const B_FAILING: u64 = 3;

pub const TRY_WORDS: u64 = 1 << (B_FAILING + 1);

// The first word of slot i.
pub fn slot_at(i: usize) -> usize
    requires { i ≤ most_jobs }
    ensures { result ≡ slot_at i }
{
    W_SLOTS + i * JOB_WORDS
}

// The try word of slot i.
pub fn try_at(tally: &[u64], i: usize) -> u64
    requires { (length tally.now ≡ tally_words) × (i < most_jobs) }
    ensures { result ≡ try_at tally.now i }
{
    tally[slot_at(i) + W_TRY]
}

// Whether the first or the final try passed, by the try word.
fn has_passed(w: u64) -> bool
    ensures { result ≡ (has w b_first || has w b_final) }
{
    has_bit(w, B_FIRST) || has_bit(w, B_FINAL)
}

#[tactic(auto, unfolding(crate::specs::Words::try_ok))]
pub fn try_ok(w: u64) -> bool
    ensures { result ≡ try_ok w }
{
    w < TRY_WORDS && (has_bit(w, B_CLOSED) || !has_passed(w))
}

// Makes every word 0 (9.25).
pub fn clear(tally: &mut [u64])
    requires { length tally.old ≡ tally_words }
    ensures { tally.new ≡ empty_tally }
{
    tally.fill(0);
}

pub fn number_of(b: bool) -> u64
    ensures { result ≡ bit b }
{
    b as u64
}
