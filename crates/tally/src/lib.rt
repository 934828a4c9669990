// A tally of told calls: it is started, told a call of a job, and asked for its two rates. It makes no call itself.
#![tactic(auto)]

ghost use Rattle.std.specs.Prelude.{◌≡◌};
ghost use Rattle.call_reply.specs.Replies.{StateIs};
ghost use Rattle.tally.specs.Tally.{start_spec, note_spec, rates_spec};

use call_reply::{Reply, plain_reply};
use refusal::{Refusal, refusal_code};
use tally_call::told_call;
use tally_check::{jobs_with, tally_ok};
use tally_noting::note;
use tally_words::{B_CLOSED, B_FINAL, B_FIRST, TALLY_WORDS, clear};

// 0 or the refusal; jobs whose first try passed, and jobs with a closed try; jobs whose final try passed, and jobs with a
// closed try.
#[repr(C)]
#[derive(Clone, Copy)]
pub struct Rates {
    pub code: u64,
    pub first_passed: u64,
    pub first_closed: u64,
    pub final_passed: u64,
    pub final_closed: u64,
}

// Makes `tally` an empty one.
#[unsafe(no_mangle)]
pub extern "C" fn tally_start(tally: &mut [u64]) -> Reply
    ensures { StateIs (start_spec tally.old) result tally.new }
{
    if tally.len() != TALLY_WORDS {
        return Refusal::BadState.into();
    }
    clear(tally);
    plain_reply(0)
}

// Tells a call of a job: its kind, what its reply said, and the rows that were lent to it.
#[unsafe(no_mangle)]
pub extern "C" fn tally_note(
    tally: &mut [u64],
    job: u64,
    kind: u64,
    code: u64,
    count: u64,
    warning: u64,
    rows: &[u64],
) -> Reply
    ensures { StateIs (note_spec tally.old job kind code count warning rows.now) result tally.new }
{
    if !tally_ok(tally) {
        return Refusal::BadState.into();
    }
    match told_call(kind, code, count, warning, rows) {
        None => Refusal::BadRow.into(),
        Some(c) => note(tally, job, c),
    }
}

// The two rates.
#[unsafe(no_mangle)]
pub extern "C" fn tally_rates(tally: &[u64]) -> Rates
    ensures { result ≡ rates_spec tally.now }
{
    if !tally_ok(tally) {
        return Rates {
            code: refusal_code(Refusal::BadState),
            first_passed: 0,
            first_closed: 0,
            final_passed: 0,
            final_closed: 0,
        };
    }
    let closed = jobs_with(tally, B_CLOSED);
    let first_passed = jobs_with(tally, B_FIRST);
    let final_passed = jobs_with(tally, B_FINAL);
    Rates {
        code: 0,
        first_passed,
        first_closed: closed,
        final_passed,
        final_closed: closed,
    }
}
