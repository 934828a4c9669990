// What the row text program hands to descriptors: the rows and the notices that wait.
#![tactic(auto)]

ghost use Rattle.std.specs.Prelude.{◌≡◌, ◌≤◌, length};
ghost use Rattle.csv_status.specs.Status.{ended};
ghost use Rattle.csv_io.specs.Flush.{HandedOver, Flushed, Emptied};

use csv_out::{CALL_ROOM, NOTICE_ROOM, Run};
use csv_status::{GOES_ON, NO_ERROR, NO_OUTPUT, is_written};
use std::io::Write;

// The bytes that the two buffers have room for: what may wait, and what a line adds to it.
pub const OUT_ROOM: usize = 2 * CALL_ROOM;

pub const ERR_ROOM: usize = 4096;

// What may wait before a line.
const WAITING: usize = OUT_ROOM - CALL_ROOM;

const NOTICES: usize = ERR_ROOM - NOTICE_ROOM;

// How many bytes were handed to each of the two, and how it went: GOES_ON, NO_OUTPUT or NO_ERROR.
#[derive(Clone, Copy)]
pub struct Sent {
    pub rows: usize,
    pub notices: usize,
    pub over: u64,
}

// What is left after a flush.
#[derive(Clone, Copy)]
pub struct Left {
    pub run: Run,
    pub rows: usize,
    pub notices: usize,
    pub over: u64,
}

fn lent(rows: usize, notices: usize, over: u64) -> Sent
    requires { over ≡ ended → ⊥ }
    ensures { HandedOver rows notices result }
{
    Sent {
        rows,
        notices,
        over,
    }
}

// Rows to standard output, and then notices to standard error; where the rows cannot be written the notices are not.
fn hand_over<W: Write, E: Write>(
    rows: &[u8],
    notices: &[u8],
    output: &mut W,
    errors: &mut E,
) -> Sent
    ensures { HandedOver (length rows.now) (length notices.now) result }
{
    if is_written(output, rows) {
        if is_written(errors, notices) {
            return lent(rows.len(), notices.len(), GOES_ON);
        }
        return lent(rows.len(), notices.len(), NO_ERROR);
    }
    lent(rows.len(), notices.len(), NO_OUTPUT)
}

// All that waits is handed over.
pub fn flush<W: Write, E: Write>(
    run: Run,
    out: &[u8],
    err: &[u8],
    output: &mut W,
    errors: &mut E,
) -> Left
    requires { (run.out ≤ length out.now) × (run.err ≤ length err.now) }
    ensures { Flushed run result }
{
    let n = run.out;
    let m = run.err;
    let handed = hand_over(&out[..n], &err[..m], output, errors);
    Left {
        run: Run {
            out: 0,
            err: 0,
            physical: run.physical,
            source: run.source,
            refused: run.refused,
        },
        rows: handed.rows,
        notices: handed.notices,
        over: handed.over,
    }
}

// Makes room for what one line can say: where much waits, all of it is handed over, the rows first.
pub fn emptied<W: Write, E: Write>(
    run: Run,
    out: &[u8],
    err: &[u8],
    output: &mut W,
    errors: &mut E,
) -> Left
    requires { (run.out ≤ length out.now) × (run.err ≤ length err.now) }
    ensures { Emptied run out.now err.now result }
{
    if run.out > WAITING {
        return flush(run, out, err, output, errors);
    }
    if run.err > NOTICES {
        return flush(run, out, err, output, errors);
    }
    Left {
        run,
        rows: 0,
        notices: 0,
        over: GOES_ON,
    }
}
