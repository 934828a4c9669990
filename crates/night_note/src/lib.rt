// What is told to a night's tally: a call with what its reply said, and text that cannot be read, which is told as a push refused by 10.
#![tactic(auto)]

ghost use Rattle.night_note.specs.Notes.{NoteIs, UnreadTold};

use call_reply::{Reply, plain_reply};
use csv_count::BAD_TEXT;
use night_course::{TryRun, if_told, with_course};
use night_refusal::turned_down;
use tally::tally_note;
use tally_call::K_PUSH;

// A reply is told; where the tally does not take it, the try ends.
pub fn told(run: TryRun, kind: u64, reply: Reply, rows: &[u64], tally: &mut [u64]) -> TryRun
    ensures { NoteIs kind reply rows.now tally.old run result tally.new }
{
    let note = tally_note(
        tally,
        run.ticket.job,
        kind,
        reply.code,
        reply.count,
        reply.warning,
        rows,
    );
    if_told(note.code, run)
}

// Text that cannot be read is told as a push refused by 10, at its physical line.
pub fn unread_told(run: TryRun, tally: &mut [u64]) -> TryRun
    ensures { UnreadTold run tally.old result tally.new }
{
    let before = run.course;
    let course = turned_down(before, K_PUSH, BAD_TEXT, before.physical);
    told(
        with_course(run, course),
        K_PUSH,
        plain_reply(BAD_TEXT),
        &[],
        tally,
    )
}
