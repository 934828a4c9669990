// The lines that name the blocks of a call that stay curved, for a night's list of them.
#![tactic(auto)]

ghost use Rattle.std.specs.Prelude.{◌≡◌, ◌+◌, ◌*◌, ◌≤◌, length};
ghost use Rattle.layout.specs.Layout.{row_words};
ghost use Rattle.still_curved.specs.Curved.{row_at, seen_of};
ghost use Rattle.night_listed.specs.Lines.{RowFits, RowIs, ListFits, ListIs};

use layout::{R_LINE, ROW_WORDS};
use night_named::{is_named, warning_at, word_at};
use night_naming::put_line;
use still_curved::{Seen, still_curved};

// The place behind the lines, the motion in force behind the rows, and how many lines there are.
#[derive(Clone, Copy)]
pub struct Lines {
    pub at: usize,
    pub motion: u64,
    pub lines: u64,
}

// The same behind the rows so far, and whether the last of them stays curved.
#[derive(Clone, Copy)]
pub struct Walk {
    pub at: usize,
    pub motion: u64,
    pub lines: u64,
    pub curved: bool,
}

// Row i under the motion in force before it.
fn seen_at(rows: &[u64], i: usize, motion: u64) -> Seen
    requires { i * row_words + row_words ≤ length rows.now }
    ensures { result ≡ seen_of motion (row_at rows.now i) }
{
    let from = i * ROW_WORDS;
    let to = from + ROW_WORDS;
    still_curved(&rows[from..to], motion)
}

// One row's line, where its block is named there.
fn put_row(
    job: u64,
    number: u64,
    rows: &[u64],
    i: usize,
    warning: u64,
    out: &mut [u8],
    was: Walk,
) -> Walk
    requires { RowFits rows.now i (length out.old) was }
    ensures { RowIs job number rows.now i warning was out.old result out.new }
{
    let seen = seen_at(rows, i, was.motion);
    if is_named(rows, i, seen.curved, was.curved) {
        let line = word_at(rows, i, R_LINE);
        let at = put_line(job, number, line, seen.motion, warning, out, was.at);
        return Walk {
            at,
            motion: seen.motion,
            lines: was.lines + 1,
            curved: seen.curved,
        };
    }
    Walk {
        at: was.at,
        motion: seen.motion,
        lines: was.lines,
        curved: seen.curved,
    }
}

// A line for each block of the first `count` rows that is still curved, the motion in force before them being `motion`.
pub fn put_listed(
    job: u64,
    number: u64,
    motion: u64,
    rows: &[u64],
    count: usize,
    warning: u64,
    out: &mut [u8],
    n: usize,
) -> Lines
    requires { ListFits motion rows.now count n (length out.old) }
    ensures { ListIs job number motion rows.now count warning out.old n out.new result }
{
    let mut now = Walk {
        at: n,
        motion,
        lines: 0,
        curved: false,
    };
    for i in 0..count {
        let warned = warning_at(count, warning, i);
        now = put_row(job, number, rows, i, warned, out, now);
    }
    Lines {
        at: now.at,
        motion: now.motion,
        lines: now.lines,
    }
}
