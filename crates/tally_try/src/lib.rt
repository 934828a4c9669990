// What a told call does to a try.
#![tactic(auto)]

ghost use Rattle.std.specs.Prelude.{◌≡◌, ◌||◌, cond};
ghost use Rattle.row_cells.specs.Bits.{has};
ghost use Rattle.tally_words.specs.Words.{b_closed, b_first, b_failing};
ghost use Rattle.tally_call.specs.Calls.{fails, closes, try_number, try_after};

use row_cells::has_bit;
use tally_call::{Call, K_CLOSE, TOO_FEW_PLACES};
use tally_words::{B_CLOSED, B_FAILING, B_FINAL, B_FIRST, number_of};

// The numbers of the try word's bits.
const CLOSED: u64 = 1 << B_CLOSED;

const FIRST: u64 = 1 << B_FIRST;

const FINAL: u64 = 1 << B_FINAL;

const FAILING: u64 = 1 << B_FAILING;

// Whether a call fails the try that it stands in (9.12).
#[tactic(auto, unfolding(tally_call::specs::Calls::fails))]
fn is_failing(c: Call) -> bool
    ensures { result ≡ fails c }
{
    c.warning != 0 || (c.code != 0 && c.code != TOO_FEW_PLACES)
}

// Whether a call closes the try that it stands in (9.13).
#[tactic(auto, unfolding(tally_call::specs::Calls::closes))]
fn is_closing(c: Call) -> bool
    ensures { result ≡ closes c }
{
    c.kind == K_CLOSE && c.code == 0
}

fn try_number(closed: bool, first: bool, last: bool, bad: bool) -> u64
    ensures { result ≡ try_number closed first last bad }
{
    CLOSED * number_of(closed)
        + FIRST * number_of(first)
        + FINAL * number_of(last)
        + FAILING * number_of(bad)
}

// Whether the open try has a call that fails it, this one included.
fn is_bad(w: u64, c: Call) -> bool
    ensures { result ≡ (has w b_failing || fails c) }
{
    has_bit(w, B_FAILING) || is_failing(c)
}

// Whether the first try passed, where one is closed now.
fn first_passed(w: u64, passed: bool) -> bool
    ensures { result ≡ cond (has w b_closed) (has w b_first) passed }
{
    if has_bit(w, B_CLOSED) {
        has_bit(w, B_FIRST)
    } else {
        passed
    }
}

// The try word after one more call (9.22).
pub fn try_after(w: u64, c: Call) -> u64
    ensures { result ≡ try_after w c }
{
    let bad = is_bad(w, c);
    if is_closing(c) {
        return try_number(true, first_passed(w, !bad), !bad, false);
    }
    try_number(
        has_bit(w, B_CLOSED),
        has_bit(w, B_FIRST),
        has_bit(w, B_FINAL),
        bad,
    )
}
