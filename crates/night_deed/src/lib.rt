// What a turn of a try found is done up to the call that it asks for, and what that call answered is told: over slices, with no
// descriptor and no flattener.
#![tactic(auto)]

ghost use Rattle.std.specs.Prelude.{◌≡◌, ◌+◌, ◌-◌, ◌≤◌, length};
ghost use Rattle.layout.specs.Layout.{row_words};
ghost use Rattle.text_lines.specs.declared.Found.TheVariants.{Line};
ghost use Rattle.csv_line.specs.LineText.{end_of};
ghost use Rattle.csv_out.specs.Say.{header_room};
ghost use Rattle.night_text.specs.Text.{says};
ghost use Rattle.night_turns.specs.Turns.{FoundIn};
ghost use Rattle.night_deed.specs.Deeds.{with_out, nothing_due, HeadTold, line_says, TurnAsked, LineTold, EndTold, EndAsked};
ghost use Rattle.night_deed.specs.Deeds.{HeardRoom, counted_by, Heard};

use call_reply::Reply;
use csv_header::put_header;
use csv_line::text_end;
use night_course::{GOES, TryRun, line_counted};
use night_due::{Call, close_due, ends_badly, is_due, source_by, told_as};
use night_note::unread_told;
use night_text::{LineIs, text_is};
use night_told::call_told;
use text_lines::{Found, Turn};

// The try as it then stands, and the call that is due.
#[derive(Clone, Copy)]
pub struct Asked {
    pub run: TryRun,
    pub call: Call,
}

fn nothing_due(run: TryRun) -> Asked
    ensures { result ≡ nothing_due run }
{
    Asked {
        run,
        call: Call::Nothing,
    }
}

// The try with n bytes of rows that wait.
fn with_out(run: TryRun, n: usize) -> TryRun
    ensures { result ≡ with_out run n }
{
    let ticket = run.ticket;
    let course = run.course;
    TryRun {
        ticket,
        course,
        out: n,
        listed: run.listed,
    }
}

// The header is answered by the header of rows.
fn heading(run: TryRun, out: &mut [u8]) -> TryRun
    requires { run.out + header_room ≤ length out.old }
    ensures { HeadTold run out.old result out.new }
{
    let n = put_header(out, run.out);
    with_out(run, n)
}

// What a line is, with its end.
fn line_is(physical: u64, line: &[u8], row: &mut [u64]) -> LineIs
    requires { length row.old ≡ row_words }
    ensures { says result row.new ≡ line_says physical line.now (end_of line.now) }
{
    let Some(n) = text_end(line) else {
        return LineIs::Unread;
    };
    text_is(physical, &line[..n], row)
}

// A line is told and counted, unless it is a block, which is pushed first.
fn line_told(what: LineIs, run: TryRun, tally: &mut [u64], out: &mut [u8]) -> Asked
    requires { run.out + header_room ≤ length out.old }
    ensures { LineTold what run tally.old out.old result tally.new out.new }
{
    match what {
        LineIs::Unread => nothing_due(line_counted(unread_told(run, tally))),
        LineIs::Header => nothing_due(line_counted(heading(run, out))),
        LineIs::Block => Asked {
            run,
            call: Call::Push,
        },
    }
}

// The line that a turn found, as long as the try goes on.
fn line_asked(
    t: Turn,
    run: TryRun,
    buf: &[u8],
    row: &mut [u64],
    tally: &mut [u64],
    out: &mut [u8],
) -> Asked
    requires { FoundIn t (length buf.now) × ((length row.old ≡ row_words) × (run.out + header_room ≤ length out.old)) }
    ensures { TurnAsked Line t run buf.now row.new tally.old out.old
        result tally.new out.new }
{
    if run.course.stands == GOES {
        let from = t.from;
        let at = t.at;
        let what = line_is(run.course.physical, &buf[from..at], row);
        return line_told(what, run, tally, out);
    }
    nothing_due(run)
}

// The end of the input, with `behind` bytes behind its last line.
fn input_ends(run: TryRun, behind: usize, tally: &mut [u64]) -> TryRun
    ensures { EndTold run behind tally.old result tally.new }
{
    if ends_badly(run.course, behind) {
        return unread_told(run, tally);
    }
    run
}

// The end of a try: it is closed, where it is open.
fn end_asked(run: TryRun, behind: usize, tally: &mut [u64]) -> Asked
    ensures { EndAsked run behind tally.old result tally.new }
{
    let then = input_ends(run, behind, tally);
    let call = close_due(then.course.stands);
    Asked { run: then, call }
}

// What a turn found is done, up to a call; a line that fills the buffer is one without its end.
pub fn turn_asks(
    t: Turn,
    run: TryRun,
    buf: &[u8],
    row: &mut [u64],
    tally: &mut [u64],
    out: &mut [u8],
) -> Asked
    requires { FoundIn t (length buf.now) × ((length row.old ≡ row_words) × (run.out + header_room ≤ length out.old)) }
    ensures { TurnAsked t.found t run buf.now row.new tally.old out.old
        result tally.new out.new }
{
    let found = t.found;
    match found {
        Found::Line => line_asked(t, run, buf, row, tally, out),
        Found::Ended => end_asked(run, t.end - t.at, tally),
        Found::Full => nothing_due(input_ends(run, t.end - t.at, tally)),
        Found::More => nothing_due(run),
        Found::Failed => nothing_due(run),
    }
}

// The line of a block that was pushed is counted.
fn counted_behind(call: Call, run: TryRun) -> TryRun
    ensures { result ≡ counted_by call run }
{
    match call {
        Call::Nothing => run,
        Call::Push => line_counted(run),
        Call::Close => run,
    }
}

// What the call answered is heard, told, and added to what waits.
pub fn heard(
    call: Call,
    run: TryRun,
    row: &[u64],
    reply: Reply,
    rows: &[u64],
    tally: &mut [u64],
    out: &mut [u8],
    listed: &mut [u8],
) -> TryRun
    requires { HeardRoom call run (length row.now) reply (length rows.now) (length out.old) (length listed.old) }
    ensures { Heard call run row.now reply rows.now tally.old out.old listed.old
        result tally.new out.new listed.new }
{
    if is_due(call) {
        let source = source_by(call, run.course, row);
        let then = call_told(run, source, told_as(call), reply, rows, tally, out, listed);
        return counted_behind(call, then);
    }
    run
}
