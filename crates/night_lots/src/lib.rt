// Which of five lots a job of a night is in.
#![tactic(auto)]

ghost use Rattle.std.specs.Prelude.{◌≡◌, cond};
ghost use Rattle.row_cells.specs.Bits.{has};
ghost use Rattle.tally_words.specs.Words.{b_first, b_closed};
ghost use Rattle.night_lots.specs.Lot.{at_first, when_coarser, never_passed, not_closed, lot_of};

use night_marks::is_over;
use row_cells::has_bit;
use tally_words::{B_CLOSED, B_FINAL, B_FIRST};

// The lots. They are numbers and no enum, since `count_lot` of night_jobs answers for every number: 0 where it is no lot's.
pub const AT_FIRST: u64 = 0;

pub const WHEN_COARSER: u64 = 1;

pub const NEVER_PASSED: u64 = 2;

pub const NOT_CLOSED: u64 = 3;

pub const NOT_TRIED: u64 = 4;

// The lot of a job that passed.
fn passed_lot(mark: u64) -> u64
    ensures { result ≡ cond (has mark b_first) at_first when_coarser }
{
    if has_bit(mark, B_FIRST) {
        AT_FIRST
    } else {
        WHEN_COARSER
    }
}

// The lot of a job that is done with and did not pass.
fn failed_lot(mark: u64) -> u64
    ensures { result ≡ cond (has mark b_closed) never_passed not_closed }
{
    if has_bit(mark, B_CLOSED) {
        NEVER_PASSED
    } else {
        NOT_CLOSED
    }
}

// The lot of a job with this mark, which was tried so often.
#[tactic(auto, unfolding(crate::specs::Lot::lot_of))]
pub fn lot_of(mark: u64, tries: u64, tolerances: u64) -> u64
    ensures { result ≡ lot_of mark tries tolerances }
{
    if has_bit(mark, B_FINAL) {
        passed_lot(mark)
    } else if is_over(mark, tries, tolerances) {
        failed_lot(mark)
    } else {
        NOT_TRIED
    }
}
