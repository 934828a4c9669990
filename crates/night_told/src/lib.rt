// A push or a close of a night that was made is told to the tally here, with what its reply said.
#![tactic(auto)]

ghost use Rattle.std.specs.Prelude.{length};
ghost use Rattle.night_answer.specs.Answers.{AnswerFits};
ghost use Rattle.night_told.specs.Tellings.{CallTold};

use call_reply::Reply;
use night_answer::answer;
use night_course::{TryRun, at_source};
use night_note::told;

// What a call answered at a source line is heard, added to what waits, and told.
pub fn call_told(
    run: TryRun,
    source: u64,
    kind: u64,
    reply: Reply,
    rows: &[u64],
    tally: &mut [u64],
    out: &mut [u8],
    listed: &mut [u8],
) -> TryRun
    requires { AnswerFits reply (length rows.now) (length out.old) (length listed.old) run }
    ensures { CallTold source kind reply rows.now tally.old run out.old listed.old
        result tally.new out.new listed.new }
{
    let heard = answer(at_source(run, source), kind, reply, rows, out, listed);
    let then = heard.run;
    let said = heard.reply;
    told(then, kind, said, rows, tally)
}
