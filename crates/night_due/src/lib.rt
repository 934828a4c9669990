// What is due behind what a turn of a try found: whether its end is told, which call is made, and as what it is told.
#![tactic(auto)]

ghost use Rattle.std.specs.Prelude.{◌≡◌, length};
ghost use Rattle.layout.specs.Layout.{row_words};
ghost use Rattle.night_course.specs.Course.{is_open};
ghost use Rattle.night_due.specs.Due.{ends_badly, close_due, again_due, is_due, told_as, source_by};

use csv_replied::source_of;
use csv_status::may_end;
use night_course::{Course, GOES, REFUSED};
use tally_call::{K_CLOSE, K_PUSH};

// The call that is due.
#[derive(Clone, Copy, PartialEq, Eq)]
pub enum Call {
    Nothing,
    Push,
    Close,
}

// Whether the end of the input is told, with `behind` bytes behind its last line.
#[tactic(auto, unfolding(crate::specs::Due::ends_badly, csv_status::specs::Status::may_end))]
pub fn ends_badly(course: Course, behind: usize) -> bool
    ensures { result ≡ ends_badly course.stands course.physical behind }
{
    !may_end(behind, course.physical) && course.stands == GOES
}

// Whether a try is closed next.
fn is_open(stands: u64) -> bool
    ensures { result ≡ is_open stands }
{
    stands == GOES || stands == REFUSED
}

// The call at the end of the input.
pub fn close_due(stands: u64) -> Call
    ensures { result ≡ close_due stands }
{
    if is_open(stands) {
        Call::Close
    } else {
        Call::Nothing
    }
}

// The call behind a call: a close whose rows have no text leaves the try open, and a second close ends it.
pub fn again_due(call: Call, stands: u64) -> Call
    ensures { result ≡ again_due call stands }
{
    match call {
        Call::Nothing | Call::Push => Call::Nothing,
        Call::Close => close_due(stands),
    }
}

// Whether a call is made at all.
pub fn is_due(call: Call) -> bool
    ensures { result ≡ is_due call }
{
    call != Call::Nothing
}

// The kind that a call is told as.
pub fn told_as(call: Call) -> u64
    ensures { result ≡ told_as call }
{
    match call {
        Call::Push => K_PUSH,
        Call::Close | Call::Nothing => K_CLOSE,
    }
}

// The source line that a call is told at: a push at that of its row, any other at that of the last block.
pub fn source_by(call: Call, course: Course, row: &[u64]) -> u64
    requires { length row.now ≡ row_words }
    ensures { result ≡ source_by call course row.now }
{
    match call {
        Call::Push => source_of(row),
        Call::Close | Call::Nothing => course.source,
    }
}
