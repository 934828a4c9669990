// Lines of an open file, in a buffer of a fixed size: each turn of a program's reading loop is `next_turn`.
#![tactic(auto)]

ghost use Rattle.std.specs.Prelude.{◌+◌, ◌<◌, ◌≤◌, length, ◌≡◌};
ghost use Rattle.text_cut.specs.Cut.{cut, between};
ghost use Rattle.text_lines.specs.Turns.{Turned};

use std::io::Read;
use text_cut::line_end;
use text_front::{read_more, to_front};

// What a turn found: a line that stands whole, more bytes, the end of the input, a buffer that no line fits in, or that
// the input cannot be read.
#[derive(Clone, Copy)]
pub enum Found {
    Line,
    More,
    Ended,
    Full,
    Failed,
}

// The unread bytes of the buffer are then from `at` up to `end`; a line that was found is from `from` up to `at`.
#[derive(Clone, Copy)]
pub struct Turn {
    pub from: usize,
    pub at: usize,
    pub end: usize,
    pub found: Found,
}

fn at_front(end: usize, found: Found) -> Turn
    ensures { result ≡ record { from = 0; at = 0; end = end; found = found } }
{
    Turn {
        from: 0,
        at: 0,
        end,
        found,
    }
}

// No line stands whole: the unread bytes go to the front, and more are read behind them.
fn read_on<R: Read>(input: &mut R, buf: &mut [u8], at: usize, end: usize) -> Turn
    requires at_le_end { (at ≤ end) × (end ≤ length buf.old) }
    requires end_bound { end < at + cut (between buf.old at end) }
    ensures { Turned buf.old at end buf.new result }
{
    let n = to_front(buf, at, end);
    if n == buf.len() {
        return at_front(n, Found::Full);
    }
    match read_more(input, buf, n) {
        Ok(m) if m > n => at_front(m, Found::More),
        Ok(_) => at_front(n, Found::Ended),
        Err(_) => at_front(n, Found::Failed),
    }
}

// One turn of the reading loop: a line that stands whole in the buffer, or a reading.
pub fn next_turn<R: Read>(input: &mut R, buf: &mut [u8], at: usize, end: usize) -> Turn
    requires { (at ≤ end) × (end ≤ length buf.old) }
    ensures { Turned buf.old at end buf.new result }
{
    let e = line_end(buf, at, end);
    if e <= end {
        return Turn {
            from: at,
            at: e,
            end,
            found: Found::Line,
        };
    }
    read_on(input, buf, at, end)
}
