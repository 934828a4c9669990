// How a try of a night begins: its start is made and told to the tally, and the numbers of the try behind it.
#![tactic(auto)]

ghost use Rattle.std.specs.Prelude.{◌≡◌};
ghost use Rattle.night_begin.specs.Begin.{fresh, first_course};
ghost use Rattle.night_begin.specs.Starts.{StartTold};

use csv_start::started;
use motion::G1;
use night_course::{Course, GOES, Ticket, TryRun};
use night_note::told;
use night_refusal::turned_down;

// The kind of a start, as a told call.
const K_START: u64 = 0;

// Before the first line.
fn fresh() -> Course
    ensures { result ≡ fresh }
{
    Course {
        physical: 1,
        source: 0,
        motion: G1,
        curved: 0,
        refusal: 0,
        line: 0,
        stands: GOES,
    }
}

// The numbers of a try whose start answered this code.
fn first_course(code: u64) -> Course
    ensures { result ≡ first_course code }
{
    if code == 0 {
        return fresh();
    }
    turned_down(fresh(), K_START, code, 0)
}

// A start, made and told: axes X Y Z, this tolerance by its bits, no seed.
pub fn start_told(ticket: Ticket, tolerance: u64, state: &mut [u64], tally: &mut [u64]) -> Course
    ensures { StartTold ticket state.old tally.old tolerance state.new tally.new result }
{
    let reply = started(state, tolerance);
    let run = TryRun {
        ticket,
        course: first_course(reply.code),
        out: 0,
        listed: 0,
    };
    let then = told(run, K_START, reply, &[], tally);
    let course = then.course;
    course
}
