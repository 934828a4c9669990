// One turn of the reading loop of `replay`: what the line asks for that it found.
#![tactic(auto)]

ghost use Rattle.std.specs.Prelude.{◌<◌, ◌≤◌, length, ◌≡◌};
ghost use Rattle.replay_turn.specs.Places.{Lies};

use replay_ask::{Ask, read_ask};
use replay_memory::{MOST_LENGTH, TEXT_ROOM};
use std::io::Read;
use text_lines::{Found, Turn, next_turn};

// Where reading stands: the unread bytes of the buffer are from `at` up to `end`; `lines` were read, the last of
// which asks for `ask`, none where it is bad; `turns` are left.
#[derive(Clone, Copy)]
pub struct Window {
    pub at: usize,
    pub end: usize,
    pub lines: u64,
    pub turns: u64,
    pub ask: Option<Ask>,
}

fn next(n: u64) -> u64 {
    if n < 0xffff_ffff_ffff { n + 1 } else { n }
}

// The line that a turn found, without its LF.
fn take_line(t: Turn, lines: u64, turns: u64, buf: &[u8], words: &mut [u64; MOST_LENGTH]) -> Window
    requires { (t.from < t.at) × ((t.at ≤ t.end) × (t.end ≤ length buf.now)) }
    ensures { (result.at ≤ result.end) × (result.end ≤ length buf.now) }
{
    let from = t.from;
    let stop = t.at - 1;
    let ask = read_ask(&buf[from..stop], words);
    Window {
        at: t.at,
        end: t.end,
        lines: next(lines),
        turns,
        ask,
    }
}

// The end of the input: bytes that no LF ends are a line too.
fn take_rest(t: Turn, lines: u64, buf: &[u8], words: &mut [u64; MOST_LENGTH]) -> Window
    requires { (t.at ≤ t.end) × (t.end ≤ length buf.now) }
    ensures { (result.at ≤ result.end) × (result.end ≤ length buf.now) }
{
    let at = t.at;
    let end = t.end;
    if at == end {
        return unasked(end, end, lines, 0);
    }
    let ask = read_ask(&buf[at..end], words);
    Window {
        at: end,
        end,
        lines: next(lines),
        turns: 0,
        ask,
    }
}

// No line was read.
pub fn unasked(at: usize, end: usize, lines: u64, turns: u64) -> Window
    ensures { (result.at ≡ at) × (result.end ≡ end) }
{
    Window {
        at,
        end,
        lines,
        turns,
        ask: Some(Ask::Nothing),
    }
}

// What a turn found: the next line, more bytes, or the last line.
fn asked(t: Turn, lines: u64, turns: u64, buf: &[u8], words: &mut [u64; MOST_LENGTH]) -> Window
    requires { Lies t (length buf.now) }
    ensures { (result.at ≤ result.end) × (result.end ≤ length buf.now) }
{
    let found = t.found;
    match found {
        Found::Line => take_line(t, lines, turns, buf, words),
        Found::More => unasked(t.at, t.end, lines, turns),
        _ => take_rest(t, lines, buf, words),
    }
}

// One turn: a whole line that is in the buffer, or a read.
fn turn<R: Read>(input: &mut R, w: Window, buf: &mut [u8], words: &mut [u64; MOST_LENGTH]) -> Window
    requires { (w.at ≤ w.end) × (w.end ≤ length buf.old) }
    ensures { (result.at ≤ result.end) × (result.end ≤ length buf.new) }
{
    let t = next_turn(input, buf, w.at, w.end);
    asked(t, w.lines, w.turns, buf, words)
}

// None once the input has ended.
fn turns_left(wanted: u64, left: u64) -> u64
    ensures { result ≤ left }
{
    wanted.min(left)
}

// A turn over an array, whose length needs no word in a loop.
pub fn turn_all<R: Read>(
    input: &mut R,
    w: Window,
    buf: &mut [u8; TEXT_ROOM],
    words: &mut [u64; MOST_LENGTH],
) -> Window
    requires { (w.at ≤ w.end) × ((w.end ≤ 65536) × (0 < w.turns)) }
    ensures { (result.at ≤ result.end) × ((result.end ≤ 65536) × (result.turns < w.turns)) }
{
    let r = turn(input, w, buf, words);
    Window {
        turns: turns_left(r.turns, w.turns - 1),
        ..r
    }
}
