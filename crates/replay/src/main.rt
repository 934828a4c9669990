// Runs the calls of docs/INTERFACE.md's `replay`, a line each, and writes what each answered.
#![tactic(auto)]

mod session;

use crate::session::done;
use layout::STATE_WORDS;
use replay_lent::Lent;
use replay_memory::{MOST_LENGTH, OLD_WORDS, ROOM_WORDS, STORE_WORDS, TEXT_ROOM, rest};
use replay_output::Waiting;
use replay_turn::{turn_all, unasked};
use std::fmt::Write as _;
use std::io::{Read, Write};

// Every line, one after another, where all memory is lent at first, and then what of the answers is not written yet.
// A line that cannot be done is answered by its number. The loop goes on as long as a turn says so, which is no count.
fn all_turns<R: Read, W: Write>(
    buf: &mut [u8; TEXT_ROOM],
    state: &mut [u64; MOST_LENGTH],
    store: &mut [u64; STORE_WORDS],
    rows: &mut [u64; ROOM_WORDS],
    old: &mut [u64; OLD_WORDS],
    out: &mut [u8; TEXT_ROOM],
    input: &mut R,
    output: &mut W,
) {
    let mut text = Waiting::new(out);
    let mut lent = Lent {
        state: STATE_WORDS,
        store: STORE_WORDS,
        rows: ROOM_WORDS,
    };
    let mut window = unasked(0, 0, 0, u64::MAX);
    // No `for`: how many turns are left is the window's, where replay_turn/must-fail/turns_without_end takes it away.
    while window.turns > 0 {
        let mut words = [0u64; MOST_LENGTH];
        window = turn_all(input, window, buf, &mut words);
        let could = done(
            window.ask, &words, &mut lent, state, store, rows, old, &mut text, output,
        );
        if could.is_none() {
            let _ = writeln!(text, "bad {}", window.lines);
        }
    }
    text.flush(output);
}

// The rows before the first line. In main, where the memory is made, a proof would go through each of its words.
fn all_at_rest(rows: &mut [u64; ROOM_WORDS]) {
    rest(rows, ROOM_WORDS);
}

fn main(rt: HostRuntime) {
    let mut input = rt.stdin();
    let mut output = rt.stdout();
    let mut buf = [0u8; TEXT_ROOM];
    let mut out = [0u8; TEXT_ROOM];
    let mut state = [0u64; MOST_LENGTH];
    let mut store = [0u64; STORE_WORDS];
    let mut old = [0u64; OLD_WORDS];
    let mut rows = [0u64; ROOM_WORDS];
    all_at_rest(&mut rows);
    all_turns(
        &mut buf,
        &mut state,
        &mut store,
        &mut rows,
        &mut old,
        &mut out,
        &mut input,
        &mut output,
    );
}
