// The steps of a night around its tries: the next try, and what a try leaves.
#![tactic(auto)]

ghost use Rattle.std.specs.Prelude.{◌<◌, IfSome};
ghost use Rattle.night_command.specs.Files.{most_files};

use csv_status::is_written;
use night_args::field_at;
use night_columns::{
    C_BLOCKS, C_CHECKSUM, C_CLOSED, C_CURVED, C_JOB, C_LINE, C_MARKED, C_PASSED, C_REFUSAL, C_ROWS,
    C_TRY, C_WARNINGS, COLUMNS,
};
use night_command::{Command, LIST_ROOM, MOST_FILES};
use night_figures::figure_of;
use night_files::{
    How, PATH_ROOM, cut_back, open_in, open_path, place_in, put_part_name, put_rows_name,
    remove_in, rename_in, within,
};
use night_known::Jobs;
use night_lines::TRY_ROOM;
use night_path::MOST_PATH;
use night_report::put_done;
use night_table::put_line;
use night_tolerance::bits_of;
use night_words::with_argument;
use std::fs::File;
use std::io::{ErrorKind, IsTerminal};
use tally_words::{MOST_WARNING, W_BLOCKS, W_MARKED, W_ROWS, number_of};

// A line on standard error about the FILE that is argument i.
pub fn complain(rt: &HostRuntime, i: usize, what: &[u8]) {
    with_argument::<MOST_PATH, _, _>(rt, i, |path| {
        say(rt, b"night: ");
        say(rt, path);
        say(rt, what);
    });
}

// Bytes on standard error, as far as they go there.
pub fn say(rt: &HostRuntime, what: &[u8]) {
    let _ = rt.stderr().write_all(what);
}

// A night that is under way: what was asked for, and its two tables, which are open.
#[derive(Drop)]
pub struct Night {
    pub command: Command,
    pub tries: File,
    pub curved: File,
}

// Where it stands: the job that is looked at next, none where nothing more can be tried, and whether something could not be
// read or written.
#[derive(Clone, Copy)]
pub struct Place {
    pub job: Option<usize>,
    pub faults: bool,
}

// The try that is made next: its job's place among the files, its number and its tolerance's bits, and the place in curved.csv
// from which on its lines stand, where the system tells it.
#[derive(Clone, Copy)]
pub struct Next {
    pub job: usize,
    pub number: u64,
    pub tolerance: u64,
    pub from: Option<u64>,
}

// The open files of a try: its FILE, and the file for its rows.
#[derive(Drop)]
pub struct TryFiles {
    pub input: File,
    pub output: File,
}

// A try that was made: where the night stood before it, what it was, and its open files.
#[derive(Drop)]
pub struct Made {
    pub place: Place,
    pub next: Next,
    pub files: TryFiles,
}

// What comes next: a try with its files, or a job whose files could not be opened.
#[derive(Drop)]
pub enum Coming {
    Try(Next, TryFiles),
    PassedOver(usize),
}

// The first job from a place on that is not over.
fn next_job(command: Command, from: usize, jobs: &Jobs) -> Option<usize>
    ensures { IfSome result (λ i. i < most_files) }
{
    for job in from..command.files.min(MOST_FILES) {
        if !jobs.is_over(job, command.tolerances as u64) {
            return Some(job);
        }
    }
    None
}

// The bits of tolerance i of a night.
fn tolerance_bits(rt: &HostRuntime, command: Command, i: usize) -> u64 {
    with_argument::<LIST_ROOM, _, _>(rt, command.list, |list| {
        field_at(list, i).map_or(0, bits_of)
    })
}

fn open_file(rt: &HostRuntime, i: usize) -> Option<File> {
    with_argument::<MOST_PATH, _, _>(rt, i, |path| open_path(rt, path, How::Read))
}

// What is made of a name for the rows of a try of the FILE that is argument i; nothing where there is no such name.
fn with_name<T, P, F>(rt: &HostRuntime, i: usize, number: u64, put: P, made: F) -> Option<T>
where
    P: FnOnce(&mut [u8], &[u8], u64) -> Option<usize>,
    F: FnOnce(&[u8]) -> Option<T>,
    requires put { P.IsAlwaysCallable put }
    requires made { F.IsAlwaysCallable made }
{
    let mut name = [0u8; PATH_ROOM];
    let n = with_argument::<MOST_PATH, _, _>(rt, i, |path| put(&mut name, path, number))?;
    made(name.get(..n)?)
}

// Opens the file for the rows of a try, which has `.part` behind its name as long as the try is made.
fn open_part(rt: &HostRuntime, dir: usize, i: usize, number: u64) -> Option<File> {
    with_name(
        rt,
        i,
        number,
        put_part_name,
        |part| open_in(rt, dir, part, How::Overwrite),
    )
}

// The rows of a try have their own name.
fn rename_part(rt: &HostRuntime, dir: usize, i: usize, number: u64) -> bool {
    let renamed = with_name(rt, i, number, put_part_name, |part| {
        with_name(rt, i, number, put_rows_name, |rows| {
            rename_in(rt, dir, part, rows).then_some(())
        })
    });
    renamed.is_some()
}

// Neither name is left: what has no line in tries.csv has no rows.
fn remove_rows(rt: &HostRuntime, dir: usize, i: usize, number: u64) {
    with_name(
        rt,
        i,
        number,
        put_part_name,
        |part| Some(remove_in(rt, dir, part)),
    );
    with_name(
        rt,
        i,
        number,
        put_rows_name,
        |rows| Some(remove_in(rt, dir, rows)),
    );
}

// The files of a try are opened.
fn opened(rt: &HostRuntime, night: &Night, job: usize, count: u64) -> Coming {
    let command = night.command;
    let i = std::num::wrapping_add_usize(command.first, job);
    let number = std::num::wrapping_add_u64(count, 1);
    let Some(input) = open_file(rt, i) else {
        complain(rt, i, b": could not be opened\n");
        return Coming::PassedOver(job);
    };
    let Some(output) = open_part(rt, command.dir, i, number) else {
        complain(rt, i, b": the file for its rows could not be opened\n");
        return Coming::PassedOver(job);
    };
    let next = Next {
        job,
        number,
        tolerance: tolerance_bits(rt, command, count as usize),
        from: place_in(&night.curved),
    };
    Coming::Try(next, TryFiles { input, output })
}

// On a terminal: how many of how many jobs are done.
pub fn show(rt: &HostRuntime, done: usize, files: usize) {
    if !rt.stderr().is_terminal() {
        return;
    }
    let mut line = [0u8; 64];
    let n = put_done(&mut line, done as u64, files as u64);
    say(rt, &line[..n]);
}

// The line of the terminal ends, with the jobs that are done with.
pub fn show_end(rt: &HostRuntime, done: usize, files: usize) {
    if !rt.stderr().is_terminal() {
        return;
    }
    show(rt, done, files);
    say(rt, b"\n");
}

// What comes next, if anything does.
pub fn next_try(rt: &HostRuntime, night: &Night, place: Place, jobs: &Jobs) -> Option<Coming> {
    let command = night.command;
    let job = next_job(command, place.job?, jobs)?;
    show(rt, job, command.files);
    Some(opened(rt, night, job, jobs.tries(job)))
}

// What a try was: whether it was closed, its first refusal with its line, how many blocks it names, and the checksum of its file.
#[derive(Clone, Copy)]
pub struct Facts {
    pub closed: bool,
    pub refusal: u64,
    pub line: u64,
    pub curved: u64,
    pub checksum: u64,
}

// What fails a try that is then not counted: its input, what it writes, a call that could not be told, another file than its
// job's first try had.
#[derive(Clone, Copy, PartialEq, Eq, Debug)]
pub enum Fault {
    Input,
    Output,
    Untold,
    Changed,
}

fn say_failed(rt: &HostRuntime, i: usize, fault: Fault) {
    match fault {
        Fault::Input => complain(rt, i, b": could not be read\n"),
        Fault::Output => complain(
            rt,
            i,
            b": its rows or its lines of curved.csv could not be written\n",
        ),
        Fault::Changed => complain(rt, i, b": changed since its first try\n"),
        Fault::Untold => complain(rt, i, b": a call could not be told\n"),
    }
}

// The try is not counted: its rows and its lines of curved.csv go again, and its job is not tried again in this run.
fn skipped(rt: &HostRuntime, night: &Night, next: Next) -> Place {
    let command = night.command;
    let i = std::num::wrapping_add_usize(command.first, next.job);
    remove_rows(rt, command.dir, i, next.number);
    let cut = next.from.is_some_and(|at| cut_back(&night.curved, at));
    Place {
        job: cut.then_some(std::num::wrapping_add_usize(next.job, 1)),
        faults: true,
    }
}

// The numbers of a try's line.
fn numbers_of(
    next: Next,
    facts: Facts,
    passed: bool,
    before: &[u64],
    after: &[u64],
) -> [u64; COLUMNS] {
    let mut numbers = [0u64; COLUMNS];
    numbers[C_JOB] = std::num::wrapping_add_u64(next.job as u64, 1);
    numbers[C_CHECKSUM] = facts.checksum;
    numbers[C_TRY] = next.number;
    numbers[C_CLOSED] = number_of(facts.closed);
    numbers[C_BLOCKS] = figure_of(before, after, W_BLOCKS);
    numbers[C_ROWS] = figure_of(before, after, W_ROWS);
    numbers[C_MARKED] = figure_of(before, after, W_MARKED);
    numbers[C_REFUSAL] = facts.refusal;
    numbers[C_LINE] = facts.line;
    numbers[C_CURVED] = facts.curved;
    numbers[C_PASSED] = number_of(passed);
    for w in 0..MOST_WARNING {
        numbers[C_WARNINGS + w] = figure_of(before, after, W_MARKED + 1 + w);
    }
    numbers
}

// Adds a line to tries.csv in one writing: with it the try is counted.
fn add_line(file: &File, numbers: &[u64; COLUMNS], path: &[u8], list: &[u8], i: usize) -> bool {
    let Some(tolerance) = field_at(list, i) else {
        return false;
    };
    if path.len() > MOST_PATH || tolerance.len() > LIST_ROOM {
        return false;
    }
    let mut out = [0u8; TRY_ROOM];
    let n = within(put_line(&mut out, 0, numbers, path, tolerance), &out);
    let mut to = file;
    is_written(&mut to, &out[..n])
}

fn counted(rt: &HostRuntime, night: &Night, next: Next, numbers: &[u64; COLUMNS]) -> bool {
    let command = night.command;
    let i = std::num::wrapping_add_usize(command.first, next.job);
    let tolerance = std::num::wrapping_sub_u64(next.number, 1) as usize;
    with_argument::<MOST_PATH, _, _>(rt, i, |path| {
        with_argument::<LIST_ROOM, _, _>(rt, command.list, |list| {
            add_line(&night.tries, numbers, path, list, tolerance)
        })
    })
}

// A try that was made: its rows get their name, and its line is added.
fn kept(rt: &HostRuntime, night: &Night, next: Next, numbers: &[u64; COLUMNS]) -> bool {
    let command = night.command;
    let i = std::num::wrapping_add_usize(command.first, next.job);
    if !rename_part(rt, command.dir, i, next.number) {
        complain(rt, i, b": the file of its rows could not be renamed\n");
        return false;
    }
    if !counted(rt, night, next, numbers) {
        complain(rt, i, b": its line of tries.csv could not be written\n");
        return false;
    }
    true
}

// Whether the rows of a try are in their file: the system may say only now that they could not be written. A file that is no
// file of a disk has nothing that could still fail.
fn are_written(files: &TryFiles) -> bool {
    match files.output.sync_data() {
        Ok(()) => true,
        Err(e) => e.kind() == ErrorKind::InvalidInput,
    }
}

// What a try was, where nothing fails it: its rows are written, and its file is that of its job.
fn sound(
    facts: Result<Facts, Fault>,
    written: bool,
    jobs: &Jobs,
    job: usize,
) -> Result<Facts, Fault>
    requires { job < most_files }
{
    let facts = facts?;
    if !written {
        return Err(Fault::Output);
    }
    if !jobs.same_file(job, facts.checksum) {
        return Err(Fault::Changed);
    }
    Ok(facts)
}

// What a try leaves: its files are closed, and its line and its job's marks are added where nothing failed.
pub fn settle(
    rt: &HostRuntime,
    night: &Night,
    made: Made,
    facts: Result<Facts, Fault>,
    before: &[u64],
    after: &[u64],
    jobs: &mut Jobs,
) -> Place {
    let Made { place, next, files } = made;
    let job = next.job;
    let written = are_written(&files);
    drop(files);
    if job >= MOST_FILES {
        return skipped(rt, night, next);
    }
    let facts = match sound(facts, written, jobs, job) {
        Ok(facts) => facts,
        Err(fault) => {
            say_failed(
                rt,
                std::num::wrapping_add_usize(night.command.first, job),
                fault,
            );
            return skipped(rt, night, next);
        }
    };
    let passed = night_passed::has_passed(facts.closed, after);
    let numbers = numbers_of(next, facts, passed, before, after);
    if !kept(rt, night, next, &numbers) {
        skipped(rt, night, next);
        return Place {
            job: None,
            faults: true,
        };
    }
    jobs.add_try(job, facts.checksum, next.number, facts.closed, passed);
    Place {
        job: Some(job),
        faults: place.faults,
    }
}
