// What waits is handed to a try's two files, and so a try ends.
#![tactic(auto)]

ghost use Rattle.std.specs.Prelude.{◌≡◌, ◌≤◌, length};
ghost use Rattle.csv_status.specs.Status.{ended};
ghost use Rattle.night_flush.specs.Flush.{empty_run, LastIs};

use csv_status::{GOES_ON, NO_INPUT, NO_OUTPUT, is_written};
use night_course::{Course, TryRun};
use std::fs::File;

// What may wait in each buffer before a line, and the bytes of the input buffer.
pub const KEPT: usize = 65536;

// The open files of a try: its row text, its rows, and the lines that name blocks.
#[derive(Clone, Copy)]
pub struct Files<'a> {
    pub input: &'a File,
    pub rows: &'a File,
    pub curved: &'a File,
}

// Where the reading stands: the unread bytes of the input buffer are from `at` up to `end`.
#[derive(Clone, Copy)]
pub struct Reading {
    pub at: usize,
    pub end: usize,
    pub run: TryRun,
    pub over: u64,
    pub sum: u64,
    pub length: u64,
}

// How a try ended: its numbers; ENDED, or what failed; the checksum of its file, and the file's length.
#[derive(Clone, Copy)]
pub struct Tried {
    pub course: Course,
    pub over: u64,
    pub sum: u64,
    pub length: u64,
}

// What is left after a flush.
#[derive(Clone, Copy)]
pub struct Left {
    pub run: TryRun,
    pub over: u64,
}

// Nothing waits.
fn emptied(run: TryRun) -> TryRun
    ensures { result ≡ empty_run run }
{
    let ticket = run.ticket;
    let course = run.course;
    TryRun {
        ticket,
        course,
        out: 0,
        listed: 0,
    }
}

// Rows, and then the lines that name blocks, each to its file.
fn hand_over(files: Files<'_>, rows: &[u8], curved: &[u8]) -> u64
    ensures { result ≡ ended → ⊥ }
{
    let mut to_rows = files.rows;
    let mut to_curved = files.curved;
    if is_written(&mut to_rows, rows) {
        if is_written(&mut to_curved, curved) {
            return GOES_ON;
        }
        return NO_OUTPUT;
    }
    NO_OUTPUT
}

// All that waits is handed over.
pub fn flush(files: Files<'_>, run: TryRun, out: &[u8], listed: &[u8]) -> Left
    requires { (run.out ≤ length out.now) × (run.listed ≤ length listed.now) }
    ensures { (result.run ≡ empty_run run) × (result.over ≡ ended → ⊥) }
{
    let n = run.out;
    let m = run.listed;
    let over = hand_over(files, &out[..n], &listed[..m]);
    Left {
        run: emptied(run),
        over,
    }
}

// What failed, if anything did.
fn worst(flushed: u64, over: u64) -> u64
    requires { flushed ≡ ended → ⊥ }
    ensures { result ≡ ended → over ≡ ended }
{
    if flushed != GOES_ON {
        return flushed;
    }
    over
}

// What waits is written, unless writing failed before.
pub fn last(files: Files<'_>, s: Reading, out: &[u8], listed: &[u8]) -> Tried
    requires { (s.run.out ≤ length out.now) × (s.run.listed ≤ length listed.now) }
    ensures { LastIs s result }
{
    let run = s.run;
    let course = run.course;
    let sum = checksum_length::ended(s.sum, s.length);
    if s.over > NO_INPUT {
        return Tried {
            course,
            over: s.over,
            sum,
            length: s.length,
        };
    }
    let left = flush(files, run, out, listed);
    let over = worst(left.over, s.over);
    Tried {
        course,
        over,
        sum,
        length: s.length,
    }
}
