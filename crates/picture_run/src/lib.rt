// A whole run of the picture program: a line, a turn, turn after turn, and then the end of the picture. Memory is of a fixed size.
#![tactic(auto)]

ghost use Rattle.std.specs.Prelude.{◌≡◌, ◌≤◌, length};
ghost use Rattle.csv_status.specs.Status.{goes_on};
ghost use Rattle.csv_io.specs.Flush.{out_room, err_room};
ghost use Rattle.picture_pen.specs.Drawing.{PlaneOk};
ghost use Rattle.picture_row.specs.Room.{Room, Kept};
ghost use Rattle.picture_run.specs.Pages.{FoundIn, Behind, Within};

use csv_count::BAD_TEXT;
use csv_ending::{Ending, last};
use csv_io::{ERR_ROOM, OUT_ROOM};
use csv_next::next_found;
use csv_out::{Run, next_line, refuse};
use csv_reading::{Reading, behind, ends, fails, first, going, left_of, reads_on};
use csv_status::{ENDED, GOES_ON, is_over, may_end};
use flat_read::read_flat;
use layout::ROW_WORDS;
use picture_fixed::put_start;
use picture_path::put_path_end;
use picture_pen::{Pen, first_pen};
use picture_row::{Sheet, row_line};
use picture_span::Plane;
use picture_text::put_end;
use std::io::{Read, Write};
use text_lines::{Found, Turn};

// The bytes of the input buffer.
pub const INPUT: usize = 65536;

// How the reading stands, and the pen.
#[derive(Clone, Copy)]
pub struct Page {
    pub reading: Reading,
    pub pen: Pen,
}

// Text that is no flattened row text.
fn bad(run: Run, pen: Pen, err: &mut [u8; ERR_ROOM]) -> Sheet
    requires { Room run }
    ensures { Kept run result.run }
{
    let then = refuse(run, err, run.physical, BAD_TEXT);
    Sheet { run: then, pen }
}

// The first line.
fn header_line(run: Run, pen: Pen, text: &[u8], err: &mut [u8; ERR_ROOM]) -> Sheet
    requires { Room run }
    ensures { Kept run result.run }
{
    if csv_header::is_header_out(text) {
        return Sheet { run, pen };
    }
    bad(run, pen, err)
}

// The text of a line, without its end.
fn text_line(
    run: Run,
    pen: Pen,
    plane: Plane,
    text: &[u8],
    out: &mut [u8; OUT_ROOM],
    err: &mut [u8; ERR_ROOM],
) -> Sheet
    requires { PlaneOk plane × Room run }
    ensures { Kept run result.run }
{
    if run.physical == 1 {
        return header_line(run, pen, text, err);
    }
    let mut row = [0u64; ROW_WORDS];
    if read_flat(text, &mut row) {
        return row_line(run, pen, plane, &row, out);
    }
    bad(run, pen, err)
}

// A line with its end, not yet counted.
fn whole_line(
    run: Run,
    pen: Pen,
    plane: Plane,
    line: &[u8],
    out: &mut [u8; OUT_ROOM],
    err: &mut [u8; ERR_ROOM],
) -> Sheet
    requires { PlaneOk plane × Room run }
    ensures { Kept run result.run }
{
    let Some(n) = csv_line::text_end(line) else {
        return bad(run, pen, err);
    };
    text_line(run, pen, plane, &line[..n], out, err)
}

// The line that a turn found is done.
fn take_line(
    t: Turn,
    run: Run,
    pen: Pen,
    plane: Plane,
    buf: &[u8],
    out: &mut [u8; OUT_ROOM],
    err: &mut [u8; ERR_ROOM],
) -> Page
    requires { FoundIn t (length buf.now) × (PlaneOk plane × Room run) }
    ensures { Behind t run result.reading }
{
    let from = t.from;
    let at = t.at;
    let sheet = whole_line(run, pen, plane, &buf[from..at], out, err);
    let drawn = sheet.run;
    let then = next_line(drawn);
    let reading = behind(t, then, going(then));
    let pen_then = sheet.pen;
    Page {
        reading,
        pen: pen_then,
    }
}

// The end of the input. A line that fills the buffer is refused as one without its end is.
fn finish(t: Turn, run: Run, pen: Pen, err: &mut [u8; ERR_ROOM]) -> Page
    requires { (t.at ≤ t.end) × Room run }
    ensures { Behind t run result.reading }
{
    if may_end(left_of(t), run.physical) {
        let reading = ends(t, run);
        return Page { reading, pen };
    }
    let sheet = bad(run, pen, err);
    let then = sheet.run;
    let reading = ends(t, then);
    Page { reading, pen }
}

// More was read, or could not be: nothing else is done.
fn only_read(reading: Reading, pen: Pen) -> Page
    ensures { result.reading ≡ reading }
{
    Page { reading, pen }
}

// What a turn found is done.
fn done(
    t: Turn,
    run: Run,
    pen: Pen,
    plane: Plane,
    buf: &[u8],
    out: &mut [u8; OUT_ROOM],
    err: &mut [u8; ERR_ROOM],
) -> Page
    requires { FoundIn t (length buf.now) × (PlaneOk plane × Room run) }
    ensures { Behind t run result.reading }
{
    let found = t.found;
    match found {
        Found::Line => take_line(t, run, pen, plane, buf, out, err),
        Found::More => only_read(reads_on(t, run), pen),
        Found::Ended | Found::Full => finish(t, run, pen, err),
        Found::Failed => only_read(fails(t, run), pen),
    }
}

// One turn: room is made, and then a line is done or more is read.
fn step<R: Read, W: Write, E: Write>(
    page: Page,
    plane: Plane,
    buf: &mut [u8; INPUT],
    out: &mut [u8; OUT_ROOM],
    err: &mut [u8; ERR_ROOM],
    input: &mut R,
    output: &mut W,
    errors: &mut E,
) -> Page
    requires { Within page.reading × ((page.reading.over ≡ goes_on) × PlaneOk plane) }
    ensures { Within result.reading }
{
    let s = page.reading;
    let pen = page.pen;
    let n = next_found(s, buf, out, err, input, output, errors);
    let run = n.run;
    if n.over != GOES_ON {
        return Page {
            reading: Reading {
                at: s.at,
                end: s.end,
                run,
                over: n.over,
            },
            pen,
        };
    }
    let t = n.turn;
    done(t, run, pen, plane, buf, out, err)
}

// The start of the picture waits, and nothing is read yet.
fn begin(out: &mut [u8; OUT_ROOM]) -> Page
    ensures { Within result.reading × (result.reading.over ≡ goes_on) }
{
    let n = put_start(out, 0);
    let s = first();
    let run = Run { out: n, ..s.run };
    Page {
        reading: Reading { run, ..s },
        pen: first_pen(),
    }
}

// Turn after turn, up to the end.
fn all_turns<R: Read, W: Write, E: Write>(
    plane: Plane,
    buf: &mut [u8; INPUT],
    out: &mut [u8; OUT_ROOM],
    err: &mut [u8; ERR_ROOM],
    input: &mut R,
    output: &mut W,
    errors: &mut E,
) -> Page
    requires { PlaneOk plane }
    ensures { Within result.reading }
{
    let mut page = begin(out);
    for _ in 0..u64::MAX {
        page = step(page, plane, buf, out, err, input, output, errors);
        if is_over(over_of(page)) {
            return page;
        }
    }
    page
}

fn over_of(page: Page) -> u64
    ensures { result ≡ page.reading.over }
{
    let s = page.reading;
    s.over
}

// Whether all of the input was drawn.
fn is_whole(s: Reading) -> bool {
    !s.run.refused && s.over == ENDED
}

// The end of the picture waits behind its paths.
fn close(page: Page, plane: Plane, out: &mut [u8; OUT_ROOM]) -> Reading
    requires { Within page.reading }
    ensures { (result.run.out ≤ out_room) × (result.run.err ≤ err_room) }
{
    let s = page.reading;
    let pen = page.pen;
    let a = put_path_end(out, s.run.out, pen.path);
    let b = put_end(out, a, is_whole(s), pen.counts, plane, pen.frame);
    let run = Run { out: b, ..s.run };
    Reading { run, ..s }
}

// All turns, and the end.
pub fn whole_run<R: Read, W: Write, E: Write>(
    plane: Plane,
    buf: &mut [u8; INPUT],
    out: &mut [u8; OUT_ROOM],
    err: &mut [u8; ERR_ROOM],
    input: &mut R,
    output: &mut W,
    errors: &mut E,
) -> Ending
    requires { PlaneOk plane }
{
    let page = all_turns(plane, buf, out, err, input, output, errors);
    let s = close(page, plane, out);
    last(s, out, err, output, errors)
}
