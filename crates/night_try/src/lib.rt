// A whole try of a night: the flattener is started, and the file is read turn after turn; lines are done as long as the try goes
// on, and the rest is read for the checksum. Memory is of a fixed size and is lent.
#![tactic(auto)]

ghost use Rattle.std.specs.Prelude.{◌≡◌, length};
ghost use Rattle.csv_status.specs.Status.{goes_on};
ghost use Rattle.night_turns.specs.Steps.{slices};
ghost use Rattle.night_turns.specs.Turns.{Within, FoundIn, Light, DoneBy, TurnIs, AllTurns, Ran};
ghost use Rattle.night_deed.specs.Deeds.{Replied};

use call_close::close;
use call_push::push;
use call_reply::{Reply, plain_reply};
use csv_out::{CALL_ROOM, LENT_ROWS};
use csv_status::{GOES_ON, is_over};
use layout::{MOST_HELD, ROW_WORDS, STATE_WORDS};
use night_begin::start_told;
use night_course::{Ticket, TryRun};
use night_deed::{heard, turn_asks};
use night_due::{Call, again_due};
use night_flush::{Files, KEPT, Reading, Tried, last};
use night_found::next_found;
use night_reading::{behind, first};
use tally_words::TALLY_WORDS;
use text_lines::Turn;

// How many rows a call is lent room for, and the bytes that a row's text and a block's line are never more than.
const NIGHT_ROWS: usize = 131072;

const ROW_ROOM: usize = CALL_ROOM / LENT_ROWS;

const LINE_ROOM: usize = 64;

// The words of the spline store and of the lent rows; the bytes of the input buffer, and of the two buffers for what waits.
pub const STORE: usize = MOST_HELD as usize * ROW_WORDS;

pub const ROWS: usize = NIGHT_ROWS * ROW_WORDS;

pub const INPUT: usize = KEPT;

pub const OUT_ROOM: usize = ROW_ROOM * NIGHT_ROWS + KEPT;

pub const LISTED_ROOM: usize = LINE_ROOM * NIGHT_ROWS + KEPT;

// The call that is due is made; where none is, nothing is touched.
fn replied(
    call: Call,
    row: &[u64; ROW_WORDS],
    state: &mut [u64; STATE_WORDS],
    store: &mut [u64; STORE],
    rows: &mut [u64; ROWS],
) -> Reply
    ensures { Replied call state.old store.old rows.old row.now
        result state.new store.new rows.new }
{
    match call {
        Call::Push => push(state, store, rows, row),
        Call::Close => close(state, store, rows),
        Call::Nothing => plain_reply(0),
    }
}

// What a turn found is done: what it asks for is called and told, and so is what is due behind that call.
fn done(
    t: Turn,
    run: TryRun,
    buf: &[u8; INPUT],
    state: &mut [u64; STATE_WORDS],
    store: &mut [u64; STORE],
    rows: &mut [u64; ROWS],
    tally: &mut [u64; TALLY_WORDS],
    out: &mut [u8; OUT_ROOM],
    listed: &mut [u8; LISTED_ROOM],
) -> TryRun
    requires { FoundIn t (length buf.now) × Light run }
    ensures { let was = slices state.old store.old rows.old tally.old out.old listed.old in
        let is = slices state.new store.new rows.new tally.new out.new listed.new in
        DoneBy t.found t run buf.now was result is }
{
    let mut row = [0u64; ROW_WORDS];
    let asked = turn_asks(t, run, buf, &mut row, tally, out);
    let call = asked.call;
    let reply = replied(call, &row, state, store, rows);
    let once = heard(call, asked.run, &row, reply, rows, tally, out, listed);
    let again = again_due(call, once.course.stands);
    let answer = replied(again, &row, state, store, rows);
    heard(again, once, &row, answer, rows, tally, out, listed)
}

// One turn: room is made, and then a line is done or more is read.
fn step(
    files: Files<'_>,
    s: Reading,
    buf: &mut [u8; INPUT],
    state: &mut [u64; STATE_WORDS],
    store: &mut [u64; STORE],
    rows: &mut [u64; ROWS],
    tally: &mut [u64; TALLY_WORDS],
    out: &mut [u8; OUT_ROOM],
    listed: &mut [u8; LISTED_ROOM],
) -> Reading
    requires { Within s × (s.over ≡ goes_on) }
    ensures { let was = slices state.old store.old rows.old tally.old out.old listed.old in
        let is = slices state.new store.new rows.new tally.new out.new listed.new in
        TurnIs s buf.old was result buf.new is }
{
    let n = next_found(files, s, buf, out, listed);
    let run = n.run;
    if n.over != GOES_ON {
        return Reading {
            at: s.at,
            end: s.end,
            run,
            over: n.over,
            sum: s.sum,
            length: s.length,
        };
    }
    let t = n.turn;
    let then = done(t, run, buf, state, store, rows, tally, out, listed);
    behind(s, t, then, buf)
}

// Turn after turn, up to the end.
fn all_turns(
    files: Files<'_>,
    begun: Reading,
    buf: &mut [u8; INPUT],
    state: &mut [u64; STATE_WORDS],
    store: &mut [u64; STORE],
    rows: &mut [u64; ROWS],
    tally: &mut [u64; TALLY_WORDS],
    out: &mut [u8; OUT_ROOM],
    listed: &mut [u8; LISTED_ROOM],
) -> Reading
    requires { Within begun × (begun.over ≡ goes_on) }
    ensures { let was = slices state.old store.old rows.old tally.old out.old listed.old in
        let is = slices state.new store.new rows.new tally.new out.new listed.new in
        AllTurns begun buf.old was result buf.new is }
{
    let mut s = begun;
    for _ in 0..u64::MAX {
        s = step(files, s, buf, state, store, rows, tally, out, listed);
        if is_over(s.over) {
            return s;
        }
    }
    s
}

// A whole try: the start, all turns, and the end.
pub fn whole_try(
    files: Files<'_>,
    ticket: Ticket,
    tolerance: u64,
    buf: &mut [u8; INPUT],
    state: &mut [u64; STATE_WORDS],
    store: &mut [u64; STORE],
    rows: &mut [u64; ROWS],
    tally: &mut [u64; TALLY_WORDS],
    out: &mut [u8; OUT_ROOM],
    listed: &mut [u8; LISTED_ROOM],
) -> Tried
    ensures { let was = slices state.old store.old rows.old tally.old out.old listed.old in
        let is = slices state.new store.new rows.new tally.new out.new listed.new in
        Ran ticket tolerance buf.old was result buf.new is }
{
    let course = start_told(ticket, tolerance, state, tally);
    let begun = first(ticket, course);
    let s = all_turns(files, begun, buf, state, store, rows, tally, out, listed);
    last(files, s, out, listed)
}
