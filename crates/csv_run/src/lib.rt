// A whole run of the row text program, which calls the flattener: a line and the end of the input, over slices; a turn; turn
// after turn, and then what still waits is written. Memory is of a fixed size.
#![tactic(auto)]

ghost use Rattle.std.specs.Prelude.{◌≡◌, ◌≤◌, length};
ghost use Rattle.layout.specs.Layout.{row_words};
ghost use Rattle.csv_line.specs.LineText.{end_of};
ghost use Rattle.csv_status.specs.Status.{goes_on};
ghost use Rattle.csv_spec.specs.Line.{on_row, on_text, on_end, csv_line, csv_close, csv_end};
ghost use Rattle.csv_spec.specs.Csv.{begun};
ghost use Rattle.csv_run.specs.Steps.{Room, Stepped, slices, standing};
ghost use Rattle.csv_run.specs.Deeds.{FoundIn, LineDone, EndDone, Done};
ghost use Rattle.csv_run.specs.Turns.{Within, TurnIs};
ghost use Rattle.csv_run.specs.Run.{AllTurns, Ran};

use call_close::close;
use call_push::push;
use csv_count::BAD_TEXT;
use csv_ending::{Ending, last};
use csv_io::{ERR_ROOM, OUT_ROOM};
use csv_next::next_found;
use csv_out::{LENT_ROWS, Run, headed, next_line, refuse};
use csv_reading::{Reading, behind, ends, fails, first, going, left_of, reads_on};
use csv_replied::{call_answered, source_of};
use csv_status::{GOES_ON, is_over, may_end};
use layout::{MOST_HELD, ROW_WORDS, STATE_WORDS};
use std::io::{Read, Write};
use text_lines::{Found, Turn};

// The words of the spline store and of the lent rows, and the bytes of the input buffer.
pub const STORE: usize = MOST_HELD as usize * ROW_WORDS;

pub const ROWS: usize = LENT_ROWS * ROW_WORDS;

pub const INPUT: usize = 65536;

// A row, pushed.
fn push_row(
    run: Run,
    row: &[u64],
    state: &mut [u64],
    store: &mut [u64],
    rows: &mut [u64],
    out: &mut [u8],
    err: &mut [u8],
) -> Run
    requires { (length row.now ≡ row_words) × Room run (length rows.old) (length out.old) (length err.old) }
    ensures { let was = slices state.old store.old rows.old out.old err.old in
        let is = slices state.new store.new rows.new out.new err.new in
        Stepped (on_row (standing run was) row.now) run was result is }
{
    let reply = push(state, store, rows, row);
    call_answered(run, source_of(row), reply, rows, out, err)
}

// The text of a line, without its end.
fn text_line(
    run: Run,
    text: &[u8],
    state: &mut [u64],
    store: &mut [u64],
    rows: &mut [u64],
    out: &mut [u8],
    err: &mut [u8],
) -> Run
    requires { Room run (length rows.old) (length out.old) (length err.old) }
    ensures { let was = slices state.old store.old rows.old out.old err.old in
        let is = slices state.new store.new rows.new out.new err.new in
        Stepped (on_text (standing run was) text.now) run was result is }
{
    if run.physical == 1 {
        return headed(run, text, out, err);
    }
    let mut row = [0u64; ROW_WORDS];
    if csv_read::read_row(text, &mut row) {
        return push_row(run, &row, state, store, rows, out, err);
    }
    refuse(run, err, run.physical, BAD_TEXT)
}

// A line with its end, not yet counted.
fn whole_line(
    run: Run,
    line: &[u8],
    state: &mut [u64],
    store: &mut [u64],
    rows: &mut [u64],
    out: &mut [u8],
    err: &mut [u8],
) -> Run
    requires { Room run (length rows.old) (length out.old) (length err.old) }
    ensures { let was = slices state.old store.old rows.old out.old err.old in
        let is = slices state.new store.new rows.new out.new err.new in
        Stepped (on_end (standing run was) line.now (end_of line.now)) run was result is }
{
    let Some(n) = csv_line::text_end(line) else {
        return refuse(run, err, run.physical, BAD_TEXT);
    };
    text_line(run, &line[..n], state, store, rows, out, err)
}

// One line, with its end.
fn csv_line(
    run: Run,
    line: &[u8],
    state: &mut [u64],
    store: &mut [u64],
    rows: &mut [u64],
    out: &mut [u8],
    err: &mut [u8],
) -> Run
    requires { Room run (length rows.old) (length out.old) (length err.old) }
    ensures { let was = slices state.old store.old rows.old out.old err.old in
        let is = slices state.new store.new rows.new out.new err.new in
        Stepped (csv_line (standing run was) line.now) run was result is }
{
    next_line(whole_line(run, line, state, store, rows, out, err))
}

// The close.
fn close_run(
    run: Run,
    state: &mut [u64],
    store: &[u64],
    rows: &mut [u64],
    out: &mut [u8],
    err: &mut [u8],
) -> Run
    requires { Room run (length rows.old) (length out.old) (length err.old) }
    ensures { let was = slices state.old store.now rows.old out.old err.old in
        let is = slices state.new store.now rows.new out.new err.new in
        Stepped (csv_close (standing run was)) run was result is }
{
    let reply = close(state, store, rows);
    call_answered(run, run.source, reply, rows, out, err)
}

// The end of the input, with `left` bytes behind its last line.
fn csv_end(
    run: Run,
    left: usize,
    state: &mut [u64],
    store: &[u64],
    rows: &mut [u64],
    out: &mut [u8],
    err: &mut [u8],
) -> Run
    requires { Room run (length rows.old) (length out.old) (length err.old) }
    ensures { let was = slices state.old store.now rows.old out.old err.old in
        let is = slices state.new store.now rows.new out.new err.new in
        Stepped (csv_end (standing run was) left) run was result is }
{
    if may_end(left, run.physical) {
        return close_run(run, state, store, rows, out, err);
    }
    refuse(run, err, run.physical, BAD_TEXT)
}

// The line that a turn found is done.
fn take_line(
    t: Turn,
    run: Run,
    buf: &[u8],
    state: &mut [u64],
    store: &mut [u64],
    rows: &mut [u64],
    out: &mut [u8],
    err: &mut [u8],
) -> Reading
    requires { FoundIn t (length buf.now) × Room run (length rows.old) (length out.old) (length err.old) }
    ensures { let was = slices state.old store.old rows.old out.old err.old in
        let is = slices state.new store.new rows.new out.new err.new in
        LineDone t run buf.now was result is }
{
    let from = t.from;
    let at = t.at;
    let then = csv_line(run, &buf[from..at], state, store, rows, out, err);
    behind(t, then, going(then))
}

// The end of the input. A line that fills the buffer is refused as one without its end is.
fn finish(
    t: Turn,
    run: Run,
    state: &mut [u64],
    store: &[u64],
    rows: &mut [u64],
    out: &mut [u8],
    err: &mut [u8],
) -> Reading
    requires { (t.at ≤ t.end) × Room run (length rows.old) (length out.old) (length err.old) }
    ensures { let was = slices state.old store.now rows.old out.old err.old in
        let is = slices state.new store.now rows.new out.new err.new in
        EndDone t run was result is }
{
    let then = csv_end(run, left_of(t), state, store, rows, out, err);
    ends(t, then)
}

// What a turn found is done.
fn done(
    t: Turn,
    run: Run,
    buf: &[u8],
    state: &mut [u64],
    store: &mut [u64],
    rows: &mut [u64],
    out: &mut [u8],
    err: &mut [u8],
) -> Reading
    requires { FoundIn t (length buf.now) × Room run (length rows.old) (length out.old) (length err.old) }
    ensures { let was = slices state.old store.old rows.old out.old err.old in
        let is = slices state.new store.new rows.new out.new err.new in
        Done t.found t run buf.now was result is }
{
    let found = t.found;
    match found {
        Found::Line => take_line(t, run, buf, state, store, rows, out, err),
        Found::More => reads_on(t, run),
        Found::Ended => finish(t, run, state, store, rows, out, err),
        Found::Full => finish(t, run, state, store, rows, out, err),
        Found::Failed => fails(t, run),
    }
}

// One turn: room is made, and then a line is done or more is read.
fn step<R: Read, W: Write, E: Write>(
    s: Reading,
    buf: &mut [u8; INPUT],
    state: &mut [u64; STATE_WORDS],
    store: &mut [u64; STORE],
    rows: &mut [u64; ROWS],
    out: &mut [u8; OUT_ROOM],
    err: &mut [u8; ERR_ROOM],
    input: &mut R,
    output: &mut W,
    errors: &mut E,
) -> Reading
    requires { Within s × (s.over ≡ goes_on) }
    ensures { let was = slices state.old store.old rows.old out.old err.old in
        let is = slices state.new store.new rows.new out.new err.new in
        TurnIs s buf.old was result buf.new is }
{
    let n = next_found(s, buf, out, err, input, output, errors);
    let run = n.run;
    if n.over != GOES_ON {
        return Reading {
            at: s.at,
            end: s.end,
            run,
            over: n.over,
        };
    }
    let t = n.turn;
    done(t, run, buf, state, store, rows, out, err)
}

// Turn after turn, up to the end.
fn all_turns<R: Read, W: Write, E: Write>(
    buf: &mut [u8; INPUT],
    state: &mut [u64; STATE_WORDS],
    store: &mut [u64; STORE],
    rows: &mut [u64; ROWS],
    out: &mut [u8; OUT_ROOM],
    err: &mut [u8; ERR_ROOM],
    input: &mut R,
    output: &mut W,
    errors: &mut E,
) -> Reading
    requires { (state.old ≡ begun.state) × ((store.old ≡ begun.store) × (rows.old ≡ begun.rows)) }
    ensures { let is = slices state.new store.new rows.new out.new err.new in
        AllTurns result buf.new is }
{
    let mut s = first();
    for _ in 0..u64::MAX {
        s = step(s, buf, state, store, rows, out, err, input, output, errors);
        if is_over(s.over) {
            return s;
        }
    }
    s
}

// All turns, and the end.
pub fn whole_run<R: Read, W: Write, E: Write>(
    buf: &mut [u8; INPUT],
    state: &mut [u64; STATE_WORDS],
    store: &mut [u64; STORE],
    rows: &mut [u64; ROWS],
    out: &mut [u8; OUT_ROOM],
    err: &mut [u8; ERR_ROOM],
    input: &mut R,
    output: &mut W,
    errors: &mut E,
) -> Ending
    requires { (state.old ≡ begun.state) × ((store.old ≡ begun.store) × (rows.old ≡ begun.rows)) }
    ensures { Ran result out.new err.new }
{
    let s = all_turns(buf, state, store, rows, out, err, input, output, errors);
    last(s, out, err, output, errors)
}
