// What the row text program says to what a call answered: its rows, and its warning or its refusal, behind what waits.
#![tactic(auto)]

ghost use Rattle.std.specs.Prelude.{◌+◌, ◌≤◌, length};
ghost use Rattle.csv_out.specs.Say.{notice_room};
ghost use Rattle.csv_out.specs.Said.{Noted, Said};
ghost use Rattle.csv_answer.specs.Answer.{warning_text, answer};
ghost use Rattle.csv_answer.specs.Answers.{AnswerFits};

use csv_count::BAD_TEXT;
use csv_out::{Run, refuse};

// A call's warning, where it has one.
fn warned(run: Run, err: &mut [u8], warning: u64) -> Run
    requires { run.err + notice_room ≤ length err.old }
    ensures { Noted run.refused (warning_text run.source warning) run err.old result err.new }
{
    if warning == 0 {
        return run;
    }
    let n = csv_notice::put_notice(err, run.err, run.source, warning, false);
    Run {
        out: run.out,
        err: n,
        physical: run.physical,
        source: run.source,
        refused: run.refused,
    }
}

// What a call answered: its rows, and its warning or its refusal. A refused call writes no row, and neither does one
// with a number that has no text.
pub fn answered(
    run: Run,
    code: u64,
    count: u64,
    warning: u64,
    rows: &[u64],
    out: &mut [u8],
    err: &mut [u8],
) -> Run
    requires { AnswerFits code count (length rows.now) (length out.old) (length err.old) run }
    ensures { let p = answer run.source code count warning rows.now in
        Said p run out.old err.old result out.new err.new }
{
    if code != 0 {
        return refuse(run, err, run.source, code);
    }
    let Some(n) = csv_rows::write_rows(rows, count as usize, out, run.out) else {
        return refuse(run, err, run.source, BAD_TEXT);
    };
    warned(
        Run {
            out: n,
            err: run.err,
            physical: run.physical,
            source: run.source,
            refused: false,
        },
        err,
        warning,
    )
}
