// Where the reading of a try's file stands: every byte that is read is counted and summed once.
#![tactic(auto)]

ghost use Rattle.std.specs.Prelude.{◌≡◌, ◌+◌, ◌<◌, ◌^◌, length};
ghost use Rattle.night_reading.specs.Reading.{first_reading, over_of, from_of, came_by};
ghost use Rattle.night_reading.specs.Readings.{Summed, Places, BehindIs};

use checksum_table::with_bytes;
use csv_status::{ENDED, GOES_ON, NO_INPUT};
use night_course::{Course, Ticket, TryRun};
use night_flush::Reading;
use text_lines::{Found, Turn};

// The checksum so far, and how many bytes it is over.
#[derive(Clone, Copy)]
pub struct Sum {
    pub sum: u64,
    pub length: u64,
}

// Before the first line.
pub fn first(ticket: Ticket, course: Course) -> Reading
    ensures { result ≡ first_reading ticket course }
{
    let run = TryRun {
        ticket,
        course,
        out: 0,
        listed: 0,
    };
    Reading {
        at: 0,
        end: 0,
        run,
        over: GOES_ON,
        sum: 0,
        length: 0,
    }
}

// How many bytes there are then, where they can be counted.
fn longer(length: u64, n: u64) -> u64
    ensures { length + n < 2 ^ 64 → result ≡ length + n }
{
    if n <= u64::MAX - length {
        return length + n;
    }
    length
}

// More bytes are counted and summed.
fn summed(s: Sum, bytes: &[u8]) -> Sum
    ensures { Summed s bytes.now result }
{
    let length = longer(s.length, bytes.len() as u64);
    Sum {
        sum: with_bytes(s.sum, bytes),
        length,
    }
}

// The bytes that a turn brought are counted: those behind what was unread.
fn came(s: Reading, t: Turn, buf: &[u8]) -> Sum
    requires { Places s t (length buf.now) }
    ensures { Summed (record { sum = s.sum; length = s.length }) (came_by s t buf.now) result }
{
    let was = Sum {
        sum: s.sum,
        length: s.length,
    };
    let from = t.at + (s.end - s.at);
    let end = t.end;
    if from < end {
        return summed(was, &buf[from..end]);
    }
    was
}

// Whether the turns go on.
fn over_of(found: Found) -> u64
    ensures { result ≡ over_of found }
{
    match found {
        Found::Ended => ENDED,
        Found::Failed => NO_INPUT,
        _ => GOES_ON,
    }
}

// Where the unread bytes begin: a line that fills the buffer is passed over.
fn from_of(t: Turn) -> usize
    ensures { result ≡ from_of t.found t }
{
    let found = t.found;
    match found {
        Found::Full => t.end,
        _ => t.at,
    }
}

// The reading behind a turn.
pub fn behind(s: Reading, t: Turn, run: TryRun, buf: &[u8]) -> Reading
    requires { Places s t (length buf.now) }
    ensures { BehindIs s t run buf.now result }
{
    let sum = came(s, t, buf);
    let at = from_of(t);
    let found = t.found;
    let over = over_of(found);
    Reading {
        at,
        end: t.end,
        run,
        over,
        sum: sum.sum,
        length: sum.length,
    }
}
