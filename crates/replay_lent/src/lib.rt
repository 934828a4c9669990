// What is lent, and a change of it or of what it holds; whether a refused call left the memory alone.
#![tactic(auto)]

use call_reply::Reply;
use replay_ask::Change;
use replay_memory::{MOST_LENGTH, copy, is_resting, part, rest, row_words};

// The words lent from now on. The memory itself goes as one parameter for each kind: in a struct of `&mut` slices a method
// would lend one field while it reads another, which the borrow checker does not cover.
#[derive(Clone, Copy)]
pub struct Lent {
    pub state: usize,
    pub store: usize,
    pub rows: usize,
}

// The words of the state and the store as they are before a call.
pub fn save(state: &[u64], store: &[u64], old: &mut [u64]) {
    let n = part(MOST_LENGTH, old);
    copy(state, &mut old[..n]);
    copy(store, &mut old[n..]);
}

// Whether state, store and row buffer are as they were: `old` has the state's words and then the store's.
fn is_untouched(state: &[u64], store: &[u64], rows: &[u64], old: &[u64]) -> bool {
    let (old_state, old_store) = old.split_at(part(MOST_LENGTH, old));
    state == old_state && store == old_store && is_resting(rows)
}

// Whether a call left the memory alone that it may not write: any, where it refused.
pub fn is_kept(r: Reply, state: &[u64], store: &[u64], rows: &[u64], old: &[u64]) -> bool {
    r.code == 0 || is_untouched(state, store, rows, old)
}

// The row buffer is put to rest again behind a call that wrote rows.
pub fn tidy(r: Reply, rows: &mut [u64]) {
    if r.code == 0 {
        rest(rows, row_words(r.count));
    }
}

// Sets a word, where there is one at that place.
fn poke(words: &mut [u64], place: u64, word: u64) -> Option<()> {
    *words.get_mut(place as usize)? = word;
    Some(())
}

// A change of what is lent or of what it holds, where it can be made.
pub fn make(change: Change, lent: &mut Lent, state: &mut [u64], store: &mut [u64]) -> Option<()> {
    match change {
        Change::Room(n) => lent.rows = row_words(n),
        Change::Blocks(n) => lent.store = row_words(n),
        Change::Length(n) => lent.state = n as usize,
        Change::Poke { place, word } => return poke(state, place, word),
        Change::PokeStore { place, word } => return poke(store, place, word),
    }
    Some(())
}
