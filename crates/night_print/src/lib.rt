// What a night prints at its end: counts over the marks of its jobs, and the jobs that its table of tries names.
#![tactic(auto)]

ghost use Rattle.std.specs.Prelude.{◌≡◌, ◌<◌, ◌≤◌, length};
ghost use Rattle.night_columns.specs.Columns.{columns};
ghost use Rattle.night_command.specs.Files.{most_files};

use csv_line::{put_bytes, text_end};
use csv_status::is_written;
use night_args::field_at;
use night_columns::{C_FILE, C_JOB, C_TOLERANCE, C_TRY, COLUMNS};
use night_command::{Command, MOST_FILES};
use night_counts::count_with;
use night_files::{is_torn, line_at, within};
use night_jobs::count_lot;
use night_known::{Jobs, job_at};
use night_lines::{MOST_LINES, TRY_ROOM};
use night_lots::{NEVER_PASSED, NOT_CLOSED, NOT_TRIED, WHEN_COARSER, lot_of};
use night_path::MOST_PATH;
use night_report::{put_count, put_rate, put_reasons, put_tried};
use night_table::read_line;
use night_words::with_argument;
use std::fs::File;
use tally_words::{B_CLOSED, B_FINAL, B_FIRST};

// A job's line in the list of its lot: its FILE, and its tolerance or its reasons.
fn put_job(
    out: &mut [u8; TRY_ROOM],
    lot: u64,
    file: &[u8],
    tolerance: &[u8],
    numbers: &[u64],
) -> usize
    requires { length numbers.now ≡ columns }
{
    if file.len() > MOST_PATH || tolerance.len() > 1024 {
        return 0;
    }
    let a = put_bytes(out, 0, b"  ");
    let b = put_bytes(out, a, file);
    if lot == WHEN_COARSER {
        let c = put_bytes(out, b, b" at ");
        let d = put_bytes(out, c, tolerance);
        return put_bytes(out, d, b"\n");
    }
    put_reasons(out, b, numbers)
}

fn print_job(rt: &HostRuntime, text: &[u8], lot: u64, numbers: &[u64]) -> bool
    requires { length numbers.now ≡ columns }
{
    let Some(file) = field_at(text, C_FILE) else {
        return false;
    };
    let Some(tolerance) = field_at(text, C_TOLERANCE) else {
        return false;
    };
    let mut out = [0u8; TRY_ROOM];
    let n = within(put_job(&mut out, lot, file, tolerance, numbers), &out);
    is_written(&mut rt.stdout(), &out[..n])
}

fn print_count(rt: &HostRuntime, what: &[u8], a: u64) -> bool
    requires { length what.now ≤ 32 }
{
    let mut out = [0u8; 128];
    let n = put_count(&mut out, what, a);
    is_written(&mut rt.stdout(), &out[..n])
}

fn print_rate(rt: &HostRuntime, what: &[u8], a: u64, b: u64) -> bool
    requires { length what.now ≤ 32 }
{
    let mut out = [0u8; 128];
    let n = put_rate(&mut out, what, a, b);
    is_written(&mut rt.stdout(), &out[..n])
}

// The line of a job that was not tried to its end, of this FILE.
fn put_untried(out: &mut [u8; TRY_ROOM], file: &[u8], tries: u64, tolerances: u64) -> usize {
    if file.len() > MOST_PATH {
        return 0;
    }
    let a = put_bytes(out, 0, b"  ");
    let b = put_bytes(out, a, file);
    put_tried(out, b, tries, tolerances)
}

fn print_tried(rt: &HostRuntime, i: usize, tries: u64, tolerances: u64) -> bool {
    with_argument::<MOST_PATH, _, _>(rt, i, |file| {
        let mut out = [0u8; TRY_ROOM];
        let n = within(put_untried(&mut out, file, tries, tolerances), &out);
        is_written(&mut rt.stdout(), &out[..n])
    })
}

// Whether the first tries of all jobs passed.
#[derive(Clone, Copy, PartialEq, Eq, Debug)]
pub enum Verdict {
    AllPassed,
    NotAll,
}

// The counts over the jobs: of all, of those with a closed try, and of these whose first and whose last one passed.
#[derive(Clone, Copy)]
pub struct Counts {
    pub jobs: u64,
    pub closed: u64,
    pub first: u64,
    pub last: u64,
}

fn print_head(rt: &HostRuntime, c: Counts) -> bool {
    print_count(rt, b"jobs ", c.jobs)
        && print_count(rt, b"closed ", c.closed)
        && print_rate(rt, b"first tries passed ", c.first, c.closed)
        && print_rate(rt, b"final tries passed ", c.last, c.closed)
}

// A night at its end: its table of tries with the place behind its header, what was asked for, and what is known of its jobs.
#[derive(Clone, Copy)]
pub struct Report<'a> {
    pub table: &'a File,
    pub from: u64,
    pub command: Command,
    pub jobs: &'a Jobs,
}

impl Report<'_> {
    // No more jobs than there are marks.
    fn files(&self) -> usize
        ensures { result ≤ most_files }
    {
        self.command.files.min(MOST_FILES)
    }

    fn tolerances(&self) -> u64 {
        self.command.tolerances as u64
    }

    // How many jobs are in a lot.
    fn in_lot(&self, lot: u64) -> u64 {
        let jobs = self.jobs;
        count_lot(
            &jobs.marks,
            &jobs.tries,
            self.files(),
            self.tolerances(),
            lot,
        )
    }

    // How many jobs have this bit in their mark.
    fn with_bit(&self, bit: u64) -> u64
        requires { bit < 64 }
    {
        let jobs = self.jobs;
        count_with(&jobs.marks, self.files(), bit)
    }

    // Whether a job is in a lot.
    fn is_in(&self, job: usize, lot: u64) -> bool
        requires { job < most_files }
    {
        let jobs = self.jobs;
        lot_of(jobs.marks[job], jobs.tries(job), self.tolerances()) == lot
    }

    // The line of tries with this text, printed where it is the last of its job, which is in a lot.
    fn print_text(&self, rt: &HostRuntime, text: &[u8], lot: u64) -> bool {
        let mut numbers = [0u64; COLUMNS];
        if !read_line(text, &mut numbers) {
            return false;
        }
        let Some(job) = job_at(MOST_FILES, numbers[C_JOB]) else {
            return false;
        };
        let jobs = self.jobs;
        if numbers[C_TRY] != jobs.tries(job) || !self.is_in(job, lot) {
            return true;
        }
        print_job(rt, text, lot, &numbers)
    }

    // A line of tries with its end.
    fn print_line(&self, rt: &HostRuntime, line: &[u8], lot: u64) -> bool {
        let Some(end) = text_end(line) else {
            return false;
        };
        let n = within(end, line);
        self.print_text(rt, &line[..n], lot)
    }

    // The jobs of a lot, by the lines of tries; a table that cannot be read to its end is no whole list.
    fn print_list(&self, rt: &HostRuntime, lot: u64) -> bool {
        let mut at = self.from;
        for _ in 0..MOST_LINES {
            let mut buf = [0u8; TRY_ROOM];
            let Some(n) = line_at(self.table, at, &mut buf) else {
                return is_torn(self.table, at);
            };
            if !self.print_line(rt, &buf[..n], lot) {
                return false;
            }
            at = std::num::wrapping_add_u64(at, n as u64);
        }
        false
    }

    // A lot: how many jobs it has, and each by its last line of tries.
    fn print_lot(&self, rt: &HostRuntime, what: &[u8], lot: u64) -> bool
        requires { length what.now ≤ 32 }
    {
        print_count(rt, what, self.in_lot(lot)) && self.print_list(rt, lot)
    }

    // The jobs that were not tried to their end.
    fn print_untried(&self, rt: &HostRuntime) -> bool {
        let jobs = self.jobs;
        for job in 0..self.files() {
            let i = std::num::wrapping_add_usize(self.command.first, job);
            if self.is_in(job, NOT_TRIED)
                && !print_tried(rt, i, jobs.tries(job), self.tolerances())
            {
                return false;
            }
        }
        true
    }

    // How many they are and which, where there are any.
    fn print_rest(&self, rt: &HostRuntime) -> bool {
        let count = self.in_lot(NOT_TRIED);
        count == 0 || print_count(rt, b"not tried ", count) && self.print_untried(rt)
    }

    // All lots but that of the jobs that passed at first.
    fn print_lots(&self, rt: &HostRuntime) -> bool {
        self.print_lot(rt, b"passed only when coarser ", WHEN_COARSER)
            && self.print_lot(rt, b"never passed ", NEVER_PASSED)
            && self.print_lot(rt, b"not closed ", NOT_CLOSED)
            && self.print_rest(rt)
    }

    // How many jobs are done with: all that are in no lot of those not tried.
    pub fn done(&self) -> usize {
        let left = self.in_lot(NOT_TRIED);
        std::num::wrapping_sub_u64(self.command.files as u64, left) as usize
    }

    fn counts(&self) -> Counts {
        Counts {
            jobs: self.files() as u64,
            closed: self.with_bit(B_CLOSED),
            first: self.with_bit(B_FIRST),
            last: self.with_bit(B_FINAL),
        }
    }

    // Prints it, and answers what it says of the first tries; nothing where not all could be printed.
    pub fn print(&self, rt: &HostRuntime) -> Option<Verdict> {
        let counts = self.counts();
        let printed = print_head(rt, counts) && self.print_lots(rt);
        let verdict = if counts.first == counts.jobs {
            Verdict::AllPassed
        } else {
            Verdict::NotAll
        };
        printed.then_some(verdict)
    }
}
