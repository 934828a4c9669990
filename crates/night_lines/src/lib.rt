// The lines of tries that stand already, where a night goes on: each is the next try of its job.
#![tactic(auto)]

ghost use Rattle.std.specs.Prelude.{◌≡◌, ◌<◌, length};
ghost use Rattle.night_columns.specs.Columns.{columns};
ghost use Rattle.night_command.specs.Files.{most_files};

use csv_line::text_end;
use night_args::field_at;
use night_columns::{
    C_CHECKSUM, C_CLOSED, C_CURVED, C_FILE, C_JOB, C_PASSED, C_TOLERANCE, C_TRY, COLUMNS,
};
use night_command::{Command, MOST_FILES, is_argument, is_tolerance_text};
use night_files::{behind, cut_at, line_at, within};
use night_known::{Jobs, job_at};
use night_table::read_line;
use std::fs::File;

// Room for a line of tries: a path, and the rest.
pub const TRY_ROOM: usize = 8192;

// Whether a line's numbers are those of the next try of its job.
fn is_next(command: Command, numbers: &[u64], jobs: &Jobs, job: usize) -> bool
    requires { (length numbers.now ≡ columns) × (job < most_files) }
{
    !jobs.is_over(job, command.tolerances as u64)
        && jobs.same_file(job, numbers[C_CHECKSUM])
        && numbers[C_CLOSED] <= 1
        && numbers[C_PASSED] <= numbers[C_CLOSED]
        && numbers[C_TRY].checked_sub(1) == Some(jobs.tries(job))
}

// The text of a line that stands: it is the next try of its job, and its job's marks are as behind it. Answers how many
// blocks it says stay curved.
fn take_text(rt: &HostRuntime, text: &[u8], command: Command, jobs: &mut Jobs) -> Option<u64> {
    let mut numbers = [0u64; COLUMNS];
    if !read_line(text, &mut numbers) {
        return None;
    }
    let job = job_at(command.files, numbers[C_JOB])?;
    if !is_next(command, &numbers, jobs, job) {
        return None;
    }
    let place = std::num::wrapping_add_usize(command.first, job);
    if !is_argument(rt, place, field_at(text, C_FILE)?) {
        return None;
    }
    let tries = jobs.tries(job) as usize;
    if !is_tolerance_text(rt, command, tries, field_at(text, C_TOLERANCE)?) {
        return None;
    }
    jobs.add_try(
        job,
        numbers[C_CHECKSUM],
        numbers[C_TRY],
        numbers[C_CLOSED] == 1,
        numbers[C_PASSED] == 1,
    );
    Some(numbers[C_CURVED])
}

// A line with its end.
fn take_line(rt: &HostRuntime, line: &[u8], command: Command, jobs: &mut Jobs) -> Option<u64> {
    let Some(end) = text_end(line) else {
        return None;
    };
    let n = within(end, line);
    take_text(rt, &line[..n], command, jobs)
}

// How a table stands that was there already: the place behind its last whole line, and how many blocks its lines say stay curved.
#[derive(Clone, Copy)]
pub struct Stood {
    pub at: u64,
    pub curved: u64,
}

// At most so many lines.
pub const MOST_LINES: u64 = 16 * MOST_FILES as u64 + 1;

// The lines of tries.csv from a place on; nothing where one is not of this night.
pub fn take_lines(
    rt: &HostRuntime,
    file: &File,
    from: u64,
    command: Command,
    jobs: &mut Jobs,
) -> Option<Stood> {
    let mut at = from;
    let mut curved: u64 = 0;
    for _ in 0..MOST_LINES {
        let mut buf = [0u8; TRY_ROOM];
        let Some(n) = line_at(file, at, &mut buf) else {
            return Some(Stood { at, curved });
        };
        let more = take_line(rt, &buf[..n], command, jobs)?;
        at = std::num::wrapping_add_u64(at, n as u64);
        curved = std::num::wrapping_add_u64(curved, more);
    }
    None
}

// Cuts curved.csv behind so many lines, from a place on; not where it has fewer.
pub fn cut_curved(file: &File, from: u64, lines: u64) -> bool {
    behind(file, from, lines).is_some_and(|at| cut_at(file, at))
}
