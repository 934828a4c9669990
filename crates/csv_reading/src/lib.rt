// Where the reading of the row text program stands behind a turn, and whether the run goes on.
#![tactic(auto)]

ghost use Rattle.std.specs.Prelude.{◌≡◌, ◌-◌, ◌≤◌, ◌<◌};
ghost use Rattle.csv_status.specs.Status.{goes_on, ended};
ghost use Rattle.csv_reading.specs.Reading.{first_reading, going_of, behind};

use csv_out::Run;
use csv_status::{ENDED, GOES_ON, NO_INPUT};
use text_lines::Turn;

// Where the reading stands: the unread bytes of the input buffer are from `at` up to `end`.
#[derive(Clone, Copy)]
pub struct Reading {
    pub at: usize,
    pub end: usize,
    pub run: Run,
    pub over: u64,
}

// Before the first line.
pub fn first() -> Reading
    ensures { result ≡ first_reading }
{
    Reading {
        at: 0,
        end: 0,
        run: Run {
            out: 0,
            err: 0,
            physical: 1,
            source: 0,
            refused: false,
        },
        over: GOES_ON,
    }
}

// The bytes that are left behind the last line.
pub fn left_of(t: Turn) -> usize
    requires { t.at ≤ t.end }
    ensures { result ≡ t.end - t.at }
{
    t.end - t.at
}

// A refusal ends the run.
pub fn going(run: Run) -> u64
    ensures { result ≡ going_of run.refused }
{
    if run.refused { ENDED } else { GOES_ON }
}

// The reading behind a turn.
pub fn behind(t: Turn, run: Run, over: u64) -> Reading
    ensures { result ≡ behind t run over }
{
    Reading {
        at: t.at,
        end: t.end,
        run,
        over,
    }
}

// More was read: the run goes on.
pub fn reads_on(t: Turn, run: Run) -> Reading
    ensures { result ≡ behind t run goes_on }
{
    behind(t, run, GOES_ON)
}

// The input has ended.
pub fn ends(t: Turn, run: Run) -> Reading
    ensures { result ≡ behind t run ended }
{
    behind(t, run, ENDED)
}

// The input cannot be read.
pub fn fails(t: Turn, run: Run) -> Reading
    ensures { (result ≡ behind t run result.over) × (ended < result.over) }
{
    behind(t, run, NO_INPUT)
}
