// A told call: whether told numbers are one, and which.
#![tactic(auto)]

ghost use Rattle.std.specs.Prelude.{◌≡◌, ◌+◌, ◌*◌, ◌≤◌, length};
ghost use Rattle.layout.specs.Layout.{row_words};
ghost use Rattle.tally_call.specs.Calls.{mark_at};
ghost use Rattle.tally_call.specs.Told.{marks_of, lent_marks, told_call};

use layout::{R_MARK, ROW_WORDS, whole_rows};
use tally_words::{MOST_CODE, MOST_WARNING};

// Kinds of calls.
pub const K_PUSH: u64 = 2;

pub const K_CLOSE: u64 = 3;

// The refusal after which the same call is made again with more places.
pub const TOO_FEW_PLACES: u64 = 7;

// What a tally takes of a call: its kind, what it replied, and how many of the rows that it wrote are marked. Kind, refusal
// and warning are numbers, as the C interface tells them.
#[derive(Clone, Copy)]
pub struct Call {
    pub kind: u64,
    pub code: u64,
    pub count: u64,
    pub warning: u64,
    pub marked: u64,
}

fn mark_at(rows: &[u64], i: usize) -> u64
    requires { i * row_words + row_words ≤ length rows.now }
    ensures { result ≡ mark_at rows.now i }
{
    rows[i * ROW_WORDS + R_MARK]
}

// How many of the first n rows are marked, where the mark of each is one.
fn marks_of(rows: &[u64], n: usize) -> Option<u64>
    requires { n * row_words ≤ length rows.now }
    ensures { result ≡ marks_of rows.now n }
{
    let mut r: u64 = 0;
    for i in 0..n {
        let mark = mark_at(rows, i);
        if mark > 1 {
            return None;
        }
        r += mark;
    }
    Some(r)
}

// The same of the rows that an accepted call says it wrote, where so many are lent.
fn lent_marks(count: u64, rows: &[u64]) -> Option<u64>
    ensures { result ≡ lent_marks count rows.now }
{
    let n = count as usize;
    let whole = whole_rows(rows);
    if n > whole {
        return None;
    }
    marks_of(rows, n)
}

// The call that told numbers are, where they are one (9.2, 9.3).
pub fn told_call(kind: u64, code: u64, count: u64, warning: u64, rows: &[u64]) -> Option<Call>
    ensures { result ≡ told_call kind code count warning rows.now }
{
    if kind > K_CLOSE || code > MOST_CODE as u64 || warning > MOST_WARNING as u64 {
        return None;
    }
    let marked = if code == 0 {
        lent_marks(count, rows)?
    } else {
        0
    };
    Some(Call {
        kind,
        code,
        count,
        warning,
        marked,
    })
}
