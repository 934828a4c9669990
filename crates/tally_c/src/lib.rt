// The tally's three calls for programs in C, each the library's with its clause.
// The C interface needs both: the archive for C is built of this crate, and programs in Rattle call the crate tally.
#![tactic(auto)]

ghost use Rattle.std.specs.Prelude.{◌≡◌};
ghost use Rattle.call_reply.specs.Replies.{StateIs};
ghost use Rattle.tally.specs.Tally.{start_spec, note_spec, rates_spec};

use call_reply::Reply;
use tally::Rates;

// Makes `tally` an empty one.
#[unsafe(no_mangle)]
pub extern "C" fn tally_start(tally: &mut [u64]) -> Reply
    ensures { StateIs (start_spec tally.old) result tally.new }
{
    tally::tally_start(tally)
}

// Tells a call of a job: its kind, what its reply said, and the rows that were lent to it.
#[unsafe(no_mangle)]
pub extern "C" fn tally_note(
    tally: &mut [u64],
    job: u64,
    kind: u64,
    code: u64,
    count: u64,
    warning: u64,
    rows: &[u64],
) -> Reply
    ensures { StateIs (note_spec tally.old job kind code count warning rows.now) result tally.new }
{
    tally::tally_note(tally, job, kind, code, count, warning, rows)
}

// The two rates.
#[unsafe(no_mangle)]
pub extern "C" fn tally_rates(tally: &[u64]) -> Rates
    ensures { result ≡ rates_spec tally.now }
{
    tally::tally_rates(tally)
}
