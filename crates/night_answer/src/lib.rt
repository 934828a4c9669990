// What a call's answer does to a try of a night: its rows' text, the blocks that it names as still curved, and its refusal.
#![tactic(auto)]

ghost use Rattle.std.specs.Prelude.{◌≡◌, length, ◌+◌, ◌<◌, ◌^◌};
ghost use Rattle.night_answer.specs.Answer.{counted, stands_on, done_by};
ghost use Rattle.night_answer.specs.Answers.{turned_away, AnswerFits, Answers};

use call_reply::{Reply, plain_reply};
use csv_count::{BAD_TEXT, LAST_LINE};
use night_course::{CLOSED, Course, TryRun, with_course};
use night_listed::put_listed;
use night_refusal::turned_down;
use tally_call::K_CLOSE;

// A try behind an answer, and the reply as it is told.
#[derive(Clone, Copy)]
pub struct Heard {
    pub run: TryRun,
    pub reply: Reply,
}

// Blocks are counted up to this one.
fn counted_to(n: u64) -> u64
    ensures { result ≡ counted n }
{
    if n < LAST_LINE {
        return n;
    }
    LAST_LINE
}

// How a try stands behind a call that is done.
fn stands_on(kind: u64, stands: u64) -> u64
    ensures { result ≡ stands_on kind stands }
{
    if kind == K_CLOSE {
        return CLOSED;
    }
    stands
}

// A call that is done.
fn done_by(course: Course, kind: u64, motion: u64, named: u64) -> Course
    requires { course.curved + named < 2 ^ 64 }
    ensures { result ≡ done_by course kind motion named }
{
    Course {
        physical: course.physical,
        source: course.source,
        motion,
        curved: counted_to(course.curved + named),
        refusal: course.refusal,
        line: course.line,
        stands: stands_on(kind, course.stands),
    }
}

// A call that was refused, at the source line of the last block.
fn turned_away(run: TryRun, kind: u64, reply: Reply) -> Heard
    ensures { result ≡ turned_away run kind reply }
{
    let was = run.course;
    let course = turned_down(was, kind, reply.code, was.source);
    let away = with_course(run, course);
    Heard { run: away, reply }
}

// What a call answered is heard: its rows' text and the blocks that stay curved are added to what waits.
pub fn answer(
    run: TryRun,
    kind: u64,
    reply: Reply,
    rows: &[u64],
    out: &mut [u8],
    listed: &mut [u8],
) -> Heard
    requires { AnswerFits reply (length rows.now) (length out.old) (length listed.old) run }
    ensures { Answers kind reply rows.now run out.old listed.old result out.new listed.new }
{
    if reply.code != 0 {
        return turned_away(run, kind, reply);
    }
    let count = reply.count as usize;
    let Some(n) = csv_rows::write_rows(rows, count, out, run.out) else {
        return turned_away(run, kind, plain_reply(BAD_TEXT));
    };
    let ticket = run.ticket;
    let was = run.course;
    let named = put_listed(
        ticket.job,
        ticket.number,
        was.motion,
        rows,
        count,
        reply.warning,
        listed,
        run.listed,
    );
    let course = done_by(was, kind, named.motion, named.lines);
    let then = TryRun {
        ticket,
        course,
        out: n,
        listed: named.at,
    };
    Heard { run: then, reply }
}
