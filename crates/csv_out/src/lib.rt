// What the row text program says to a header and to text that it cannot read: bytes that are added to what waits for
// standard output, and bytes that are added to what waits for standard error. Nothing is written to a descriptor here.
#![tactic(auto)]

ghost use Rattle.std.specs.Prelude.{true, ◌+◌, ◌≤◌, length};
ghost use Rattle.csv_line.specs.Notice.{notice_text};
ghost use Rattle.csv_out.specs.Say.{notice_room, header_room, heading};
ghost use Rattle.csv_out.specs.Said.{Noted, Said, NextIs};

use csv_count::{BAD_TEXT, next_number};

// How long the lines of standard error and those of rows never are longer than, and how many rows a call is lent room for.
pub const NOTICE_ROOM: usize = 32;

const ROW_ROOM: usize = 256;

pub const LENT_ROWS: usize = 256;

pub const CALL_ROOM: usize = ROW_ROOM * LENT_ROWS;

// What the lines so far have left: `out` and `err` bytes wait to be written; `physical` is the number of the line read
// next, and `source` the source line of the last block.
#[derive(Clone, Copy)]
pub struct Run {
    pub out: usize,
    pub err: usize,
    pub physical: u64,
    pub source: u64,
    pub refused: bool,
}

// A refusal.
pub fn refuse(run: Run, err: &mut [u8], line: u64, number: u64) -> Run
    requires { run.err + notice_room ≤ length err.old }
    ensures { Noted true (notice_text line number true) run err.old result err.new }
{
    let n = csv_notice::put_notice(err, run.err, line, number, true);
    Run {
        out: run.out,
        err: n,
        physical: run.physical,
        source: run.source,
        refused: true,
    }
}

// The first line: the header, which is answered by the second, or not.
pub fn headed(run: Run, text: &[u8], out: &mut [u8], err: &mut [u8]) -> Run
    requires { (run.out + header_room ≤ length out.old) × (run.err + notice_room ≤ length err.old) }
    ensures { let p = heading run.physical text.now in
        Said p run out.old err.old result out.new err.new }
{
    if csv_header::is_header(text) {
        let n = csv_header::put_header(out, run.out);
        return Run {
            out: n,
            err: run.err,
            physical: run.physical,
            source: run.source,
            refused: false,
        };
    }
    refuse(run, err, run.physical, BAD_TEXT)
}

// The next line.
pub fn next_line(run: Run) -> Run
    ensures { NextIs run result }
{
    Run {
        out: run.out,
        err: run.err,
        physical: next_number(run.physical),
        source: run.source,
        refused: run.refused,
    }
}
