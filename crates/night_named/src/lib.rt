// Whether the block of a row that stays curved is named at that row, and with which warning.
#![tactic(auto)]

ghost use Rattle.std.specs.Prelude.{◌≡◌, ◌&&◌, not, ◌+◌, ◌*◌, ◌≤◌, ◌<◌, length, get_or};
ghost use Rattle.layout.specs.Layout.{row_words};
ghost use Rattle.still_curved.specs.Curved.{row_at};
ghost use Rattle.night_named.specs.Named.{further, warning_at};

use layout::{R_CARRY, ROW_WORDS};

// Word k of row i.
pub fn word_at(rows: &[u64], i: usize, k: usize) -> u64
    requires { (i * row_words + row_words ≤ length rows.now) × (k < row_words) }
    ensures { result ≡ get_or (row_at rows.now i) k 0 }
{
    rows[i * ROW_WORDS + k]
}

// Whether row i is a further row of the block of the row before it.
fn is_further(rows: &[u64], i: usize) -> bool
    requires { i * row_words + row_words ≤ length rows.now }
    ensures { result ≡ further rows.now i }
{
    if i == 0 {
        return false;
    }
    word_at(rows, i, R_CARRY) == 0
}

// Whether the block of row i is named there: the row stays curved, and it is no further row of a block that was named.
pub fn is_named(rows: &[u64], i: usize, curved: bool, before: bool) -> bool
    requires { i * row_words + row_words ≤ length rows.now }
    ensures { result ≡ (curved && not (further rows.now i && before)) }
{
    if curved {
        if before {
            return !is_further(rows, i);
        }
        return true;
    }
    false
}

// A call's warning is of its last row.
pub fn warning_at(count: usize, warning: u64, i: usize) -> u64
    requires { i < count }
    ensures { result ≡ warning_at count warning i }
{
    if i + 1 == count {
        return warning;
    }
    0
}
