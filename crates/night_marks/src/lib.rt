// What a night knows of each job: the bits of its try word, which a try's line alone gives.
#![tactic(auto)]

ghost use Rattle.std.specs.Prelude.{◌≡◌, cond};
ghost use Rattle.row_cells.specs.Bits.{has};
ghost use Rattle.tally_words.specs.Words.{b_closed, b_first};
ghost use Rattle.night_marks.specs.Marks.{mark_number, mark_after, is_over};

use row_cells::{has_bit, set_bit};
use tally_words::{B_CLOSED, B_FINAL, B_FIRST, number_of};

// The bit behind those of a try word: a try was left without a close.
const B_LEFT: u64 = 3;

const CLOSED: u64 = 1 << B_CLOSED;

const FIRST: u64 = 1 << B_FIRST;

const FINAL: u64 = 1 << B_FINAL;

// The mark of three bits.
#[tactic(auto, unfolding(crate::specs::Marks::mark_number))]
fn mark_number(closed: bool, first: bool, last: bool) -> u64
    ensures { result ≡ mark_number closed first last }
{
    CLOSED * number_of(closed) + FIRST * number_of(first) + FINAL * number_of(last)
}

// Whether the first try closed passed, where one is closed now.
fn first_passed(mark: u64, passed: bool) -> bool
    ensures { result ≡ cond (has mark b_closed) (has mark b_first) passed }
{
    if has_bit(mark, B_CLOSED) {
        has_bit(mark, B_FIRST)
    } else {
        passed
    }
}

// The mark of a job behind one more try.
#[tactic(auto, unfolding(crate::specs::Marks::mark_after))]
pub fn mark_after(mark: u64, closed: bool, passed: bool) -> u64
    ensures { result ≡ mark_after mark closed passed }
{
    if closed {
        mark_number(true, first_passed(mark, passed), passed)
    } else {
        set_bit(mark, B_LEFT)
    }
}

// Whether a job is done with: a try passed or was left, or there is no tolerance more.
#[tactic(auto, unfolding(crate::specs::Marks::is_over))]
pub fn is_over(mark: u64, tries: u64, tolerances: u64) -> bool
    ensures { result ≡ is_over mark tries tolerances }
{
    has_bit(mark, B_FINAL) || has_bit(mark, B_LEFT) || tries >= tolerances
}
