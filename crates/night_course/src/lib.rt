// The numbers of a try of a night, and what changes them but a call's answer: the tally, the block that is pushed, the line that is
// counted.
#![tactic(auto)]

ghost use Rattle.std.specs.Prelude.{◌≡◌};
ghost use Rattle.night_course.specs.Course.{with_course, if_told, at_source, next_course};

use csv_count::next_number;

// How a try stands: it goes on; it met a refusal and is closed next; it was left without a close; it was closed; a call
// could not be told.
pub const GOES: u64 = 0;

pub const REFUSED: u64 = 1;

pub const LEFT: u64 = 2;

pub const CLOSED: u64 = 3;

pub const UNTOLD: u64 = 4;

// Which try it is: its job, and its number in the job.
#[derive(Clone, Copy)]
pub struct Ticket {
    pub job: u64,
    pub number: u64,
}

// The numbers of a try: the physical line that is read next, the source line of the last block, the motion in force in
// what was written, how many blocks were named as still curved, the first refusal and its line, and how it stands.
#[derive(Clone, Copy)]
pub struct Course {
    pub physical: u64,
    pub source: u64,
    pub motion: u64,
    pub curved: u64,
    pub refusal: u64,
    pub line: u64,
    pub stands: u64,
}

// A try, with the bytes of rows and of named blocks that wait to be written.
#[derive(Clone, Copy)]
pub struct TryRun {
    pub ticket: Ticket,
    pub course: Course,
    pub out: usize,
    pub listed: usize,
}

// The try with other numbers.
pub fn with_course(run: TryRun, course: Course) -> TryRun
    ensures { result ≡ with_course run course }
{
    TryRun { course, ..run }
}

// A call that the tally did not take ends the try.
#[tactic(auto, unfolding(crate::specs::Course::if_told))]
pub fn if_told(code: u64, run: TryRun) -> TryRun
    ensures { result ≡ with_course run (if_told code run.course) }
{
    if code == 0 {
        run
    } else {
        with_course(
            run,
            Course {
                stands: UNTOLD,
                ..run.course
            },
        )
    }
}

// The source line of the block that is pushed.
pub fn at_source(run: TryRun, source: u64) -> TryRun
    ensures { result ≡ with_course run (at_source source run.course) }
{
    with_course(
        run,
        Course {
            source,
            ..run.course
        },
    )
}

// The line is counted.
pub fn line_counted(run: TryRun) -> TryRun
    ensures { result ≡ with_course run (next_course run.course) }
{
    let physical = next_number(run.course.physical);
    with_course(
        run,
        Course {
            physical,
            ..run.course
        },
    )
}
