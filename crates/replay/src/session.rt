// What a line asks for, done: a call and its answer, or a change of what is lent.
use call_reply::Reply;
use replay_answer::put_answer;
use replay_ask::{Ask, Call};
use replay_lent::{Lent, is_kept, make, save, tidy};
use replay_memory::{MOST_LENGTH, OLD_WORDS, ROOM_WORDS, STORE_WORDS, part};
use replay_output::Waiting;
use std::io::Write;

fn call_start(state: &mut [u64], lent: usize, tol: u64, codes: &[u64], count: usize) -> Reply {
    let n = part(lent, state);
    let m = part(count, codes);
    flattener::start::flat_start(&mut state[..n], tol, &codes[..m])
}

fn call_seed(state: &mut [u64], lent: usize, code: u64, bits: u64) -> Reply {
    let n = part(lent, state);
    flattener::seed::flat_seed(&mut state[..n], code, bits)
}

// The call without what it promises, which the program does not need: proofs about its callers stay small.
fn push(state: &mut [u64], store: &mut [u64], rows: &mut [u64], row: &[u64]) -> Reply {
    flattener::call::flat_push(state, store, rows, row)
}

fn call_push(
    state: &mut [u64],
    store: &mut [u64],
    rows: &mut [u64],
    lent: Lent,
    row: &[u64],
    count: usize,
) -> Reply {
    let n = part(lent.state, state);
    let m = part(lent.store, store);
    let k = part(lent.rows, rows);
    let w = part(count, row);
    push(&mut state[..n], &mut store[..m], &mut rows[..k], &row[..w])
}

fn call_close(state: &mut [u64], store: &[u64], rows: &mut [u64], lent: Lent) -> Reply {
    let n = part(lent.state, state);
    let m = part(lent.store, store);
    let k = part(lent.rows, rows);
    flattener::call::flat_close(&mut state[..n], &store[..m], &mut rows[..k])
}

fn reply_to(
    call: Call,
    words: &[u64],
    lent: Lent,
    state: &mut [u64],
    store: &mut [u64],
    rows: &mut [u64],
) -> Reply {
    match call {
        Call::Start { tol, count } => call_start(state, lent.state, tol, words, count),
        Call::Seed { code, bits } => call_seed(state, lent.state, code, bits),
        Call::Push { count } => call_push(state, store, rows, lent, words, count),
        Call::Close => call_close(state, store, rows, lent),
    }
}

// A call and its answer.
fn called<W: Write>(
    call: Call,
    words: &[u64],
    lent: Lent,
    state: &mut [u64],
    store: &mut [u64],
    rows: &mut [u64],
    old: &mut [u64],
    text: &mut Waiting,
    output: &mut W,
) {
    save(state, store, old);
    let r = reply_to(call, words, lent, state, store, rows);
    let kept = is_kept(r, state, store, rows, old);
    put_answer(r, kept, rows, text, output);
    tidy(r, rows);
}

// What a line asks for is done, where it can be.
pub fn done<W: Write>(
    ask: Option<Ask>,
    words: &[u64; MOST_LENGTH],
    lent: &mut Lent,
    state: &mut [u64; MOST_LENGTH],
    store: &mut [u64; STORE_WORDS],
    rows: &mut [u64; ROOM_WORDS],
    old: &mut [u64; OLD_WORDS],
    text: &mut Waiting,
    output: &mut W,
) -> Option<()> {
    match ask? {
        Ask::Nothing => {}
        Ask::Change(change) => make(change, lent, state, store)?,
        Ask::Call(call) => called(call, words, *lent, state, store, rows, old, text, output),
    }
    Some(())
}
