// A call's reply: the source that it names, and what is said of it.
#![tactic(auto)]

ghost use Rattle.std.specs.Prelude.{◌≡◌, length};
ghost use Rattle.layout.specs.Layout.{row_words};
ghost use Rattle.row_cells.specs.Row.{line_of};
ghost use Rattle.csv_answer.specs.Answers.{AnswerFits, Answers};

use call_reply::Reply;
use csv_answer::answered;
use csv_out::Run;
use layout::R_LINE;

// The source line of a row.
pub fn source_of(row: &[u64]) -> u64
    requires { length row.now ≡ row_words }
    ensures { result ≡ line_of row.now }
{
    row[R_LINE]
}

// What a call answered at a source line is said, and that line is then the last block's.
pub fn call_answered(
    run: Run,
    source: u64,
    reply: Reply,
    rows: &[u64],
    out: &mut [u8],
    err: &mut [u8],
) -> Run
    requires { AnswerFits reply.code reply.count (length rows.now) (length out.old) (length err.old) run }
    ensures { Answers source reply rows.now run out.old err.old result out.new err.new }
{
    let read = Run {
        out: run.out,
        err: run.err,
        physical: run.physical,
        source,
        refused: run.refused,
    };
    answered(read, reply.code, reply.count, reply.warning, rows, out, err)
}
