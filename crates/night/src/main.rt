// A night: every file is tried at each tolerance in turn until a try passes, every try is a line of a table, and the rates are
// counts over it. docs/NIGHT.md says what is read, written and printed.
#![tactic(auto)]

ghost use Rattle.std.specs.Prelude.{◌≡◌, length};
ghost use Rattle.tally_words.specs.Words.{tally_words};

use csv_status::{ENDED, NO_INPUT, report};
use layout::STATE_WORDS;
use night_args::MOST_TOLERANCES;
use night_command::{Command, MOST_FILES, command_of};
use night_course::{CLOSED, Ticket, UNTOLD};
use night_flush::{Files, Tried};
use night_known::Jobs;
use night_print::{Report, Verdict};
use night_start::{Began, begun, explain, has_room};
use night_steps::{
    Coming, Facts, Fault, Made, Next, Night, Place, TryFiles, next_try, say, settle, show_end,
};
use night_try::{INPUT, LISTED_ROOM, OUT_ROOM, ROWS, STORE, whole_try};
use tally::tally_start;
use tally_words::TALLY_WORDS;

// Each try and each file that cannot be opened takes a turn: at most so many are made.
const MOST_TURNS: u64 = (MOST_TOLERANCES as u64 + 1) * MOST_FILES as u64 + 1;

// What a try was, or what failed in it.
fn facts_of(tried: Tried) -> Result<Facts, Fault> {
    if tried.over == NO_INPUT {
        return Err(Fault::Input);
    }
    if tried.over != ENDED {
        return Err(Fault::Output);
    }
    let course = tried.course;
    if course.stands == UNTOLD {
        return Err(Fault::Untold);
    }
    Ok(Facts {
        closed: course.stands == CLOSED,
        refusal: course.refusal,
        line: course.line,
        curved: course.curved,
        checksum: tried.sum,
    })
}

fn ticket_of(next: Next) -> Ticket {
    Ticket {
        job: std::num::wrapping_add_u64(next.job as u64, 1),
        number: next.number,
    }
}

fn files_of<'a>(night: &'a Night, files: &'a TryFiles) -> Files<'a> {
    Files {
        input: &files.input,
        rows: &files.output,
        curved: &night.curved,
    }
}

// The place behind a job whose files could not be opened.
fn passed_over(job: usize) -> Place {
    Place {
        job: Some(std::num::wrapping_add_usize(job, 1)),
        faults: true,
    }
}

// The memory of a try, which the next one has again.
#[derive(Drop)]
struct Memory<'a> {
    buf: &'a mut [u8; INPUT],
    state: &'a mut [u64; STATE_WORDS],
    store: &'a mut [u64; STORE],
    rows: &'a mut [u64; ROWS],
    tally: &'a mut [u64; TALLY_WORDS],
    out: &'a mut [u8; OUT_ROOM],
    listed: &'a mut [u8; LISTED_ROOM],
}

// A tally as it stands.
fn kept(tally: &[u64; TALLY_WORDS]) -> [u64; TALLY_WORDS]
    ensures { length result ≡ tally_words }
{
    *tally
}

// One try, made, told and written down.
fn one_try(
    rt: &HostRuntime,
    night: &Night,
    place: Place,
    next: Next,
    files: TryFiles,
    jobs: &mut Jobs,
    memory: &mut Memory<'_>,
) -> Place {
    let before = kept(memory.tally);
    let tried = whole_try(
        files_of(night, &files),
        ticket_of(next),
        next.tolerance,
        memory.buf,
        memory.state,
        memory.store,
        memory.rows,
        memory.tally,
        memory.out,
        memory.listed,
    );
    let made = Made { place, next, files };
    settle(
        rt,
        night,
        made,
        facts_of(tried),
        &before,
        memory.tally,
        jobs,
    )
}

// All tries of a night, one after another, and whether something could not be read or written. A job has one tally: another job
// begins with an empty one.
fn tries_in(rt: &HostRuntime, night: &Night, jobs: &mut Jobs, memory: &mut Memory<'_>) -> bool {
    let mut told = None;
    let mut place = Place {
        job: Some(0),
        faults: false,
    };
    for _ in 0..MOST_TURNS {
        match next_try(rt, night, place, jobs) {
            None => return place.faults,
            Some(Coming::PassedOver(job)) => {
                place = passed_over(job);
            }
            Some(Coming::Try(next, files)) => {
                if told != Some(next.job) {
                    tally_start(memory.tally);
                }
                told = Some(next.job);
                place = one_try(rt, night, place, next, files, jobs, memory);
            }
        }
    }
    place.faults
}

// The same, in memory of a fixed size that is all here. It is not made a part of its caller: so its arrays are in no other
// frame, and a night that is not begun needs no large stack.
#[inline(never)]
fn all_tries(rt: &HostRuntime, night: &Night, jobs: &mut Jobs) -> bool {
    let mut buf = [0u8; INPUT];
    let mut state = [0u64; STATE_WORDS];
    let mut store = [0u64; STORE];
    let mut rows = [0u64; ROWS];
    let mut out = [0u8; OUT_ROOM];
    let mut listed = [0u8; LISTED_ROOM];
    let mut tally = [0u64; TALLY_WORDS];
    let mut memory = Memory {
        buf: &mut buf,
        state: &mut state,
        store: &mut store,
        rows: &mut rows,
        tally: &mut tally,
        out: &mut out,
        listed: &mut listed,
    };
    tries_in(rt, night, jobs, &mut memory)
}

// What is shown and printed once no try is left. The status goes to descriptor 3, which is none of the night's files: they are
// closed here.
fn ended(rt: &HostRuntime, began: Began, jobs: &Jobs) -> Option<Verdict> {
    let night = &began.night;
    let end = Report {
        table: &night.tries,
        from: began.from,
        command: night.command,
        jobs,
    };
    show_end(rt, end.done(), night.command.files);
    let told = end.print(rt);
    drop(began);
    if told.is_none() {
        say(
            rt,
            b"night: standard output could not be written, or tries.csv not be read\n",
        );
    }
    told
}

// The night that was asked for, and what is told of its first tries; nothing where something failed.
fn whole_night(rt: &HostRuntime, command: Command) -> Option<Verdict> {
    if !has_room(rt) {
        say(
            rt,
            b"night: the stack is limited to less than 128 MB; raise it (ulimit -s 262144), as ./night does\n",
        );
        return None;
    }
    let mut jobs = Jobs::new();
    let began = begun(rt, command, &mut jobs)?;
    let faults = all_tries(rt, &began.night, &mut jobs);
    let told = ended(rt, began, &jobs);
    if faults { None } else { told }
}

// The status: 0 where every job's first try passed, 1 where not, 2 where something failed.
fn status(rt: &HostRuntime, told: Option<Verdict>) {
    match told {
        Some(verdict) => report(rt, ENDED, verdict == Verdict::NotAll),
        None => report(rt, NO_INPUT, false),
    };
}

fn main(rt: HostRuntime) {
    let told = match command_of(&rt) {
        Ok(command) => whole_night(&rt, command),
        Err(reason) => {
            explain(&rt, reason);
            None
        }
    };
    status(&rt, told);
}
