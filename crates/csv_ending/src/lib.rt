// The end of a run of the row text program: what still waits is written.
#![tactic(auto)]

ghost use Rattle.std.specs.Prelude.{◌≤◌};
ghost use Rattle.csv_io.specs.Flush.{out_room, err_room};
ghost use Rattle.csv_ending.specs.Ending.{LastIs};

use csv_io::{ERR_ROOM, OUT_ROOM, flush};
use csv_reading::Reading;
use csv_status::{GOES_ON, NO_INPUT};
use std::io::Write;

// How a run ended, and how many bytes were handed over at its end.
#[derive(Clone, Copy)]
pub struct Ending {
    pub rows: usize,
    pub notices: usize,
    pub refused: bool,
    pub over: u64,
}

// What waits is written, unless writing failed before; and what failed, if anything did.
pub fn last<W: Write, E: Write>(
    s: Reading,
    out: &[u8; OUT_ROOM],
    err: &[u8; ERR_ROOM],
    output: &mut W,
    errors: &mut E,
) -> Ending
    requires { (s.run.out ≤ out_room) × (s.run.err ≤ err_room) }
    ensures { LastIs s result }
{
    if s.over > NO_INPUT {
        return Ending {
            rows: 0,
            notices: 0,
            refused: s.run.refused,
            over: s.over,
        };
    }
    let left = flush(s.run, out, err, output, errors);
    if left.over != GOES_ON {
        return Ending {
            rows: left.rows,
            notices: left.notices,
            refused: s.run.refused,
            over: left.over,
        };
    }
    let rows = left.rows;
    let over = s.over;
    Ending {
        rows,
        notices: left.notices,
        refused: s.run.refused,
        over,
    }
}
