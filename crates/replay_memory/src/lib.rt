// The memory that is lent, and whether a refused call left it alone.
#![tactic(auto)]

ghost use Rattle.std.specs.Prelude.{◌≤◌, ◌<◌, ◌+◌, ◌≡◌, length, take};

use layout::{MOST_HELD, ROW_WORDS};

// The most that is lent, by docs/INTERFACE.md: words of a state or a row, blocks of a store, rows; and the words of these.
pub const MOST_LENGTH: usize = 64;

pub const MOST_BLOCKS: usize = MOST_HELD as usize;

pub const MOST_ROOM: usize = 16384;

pub const STORE_WORDS: usize = MOST_BLOCKS * ROW_WORDS;

pub const ROOM_WORDS: usize = MOST_ROOM * ROW_WORDS;

// What a state and a store held before a call.
pub const OLD_WORDS: usize = MOST_LENGTH + STORE_WORDS;

// The input and the output wait in so many bytes.
pub const TEXT_ROOM: usize = 65536;

// As many words of `words` as n, or all.
pub fn part(n: usize, words: &[u64]) -> usize
    ensures { (result ≤ length words.now) × (result ≡ length (take result words.now)) }
{
    n.min(words.len())
}

// As many words as both have.
pub fn copy(from: &[u64], to: &mut [u64]) {
    let n = from.len().min(to.len());
    to[..n].copy_from_slice(&from[..n]);
}

// What word i of the row buffer holds between calls: no two words the same, so a stray write shows.
fn resting(i: usize) -> u64
    requires { i < 0x1_0000_0000 }
{
    i as u64 * 3 + 1
}

// The first n words of the row buffer as they are between calls.
pub fn rest(rows: &mut [u64], n: usize) {
    for (i, word) in rows.iter_mut().take(n.min(ROOM_WORDS)).enumerate() {
        *word = resting(i);
    }
}

pub fn is_resting(rows: &[u64]) -> bool {
    rows.iter()
        .take(ROOM_WORDS)
        .enumerate()
        .all(|(i, word)| *word == resting(i))
}

// The words of n rows, of as many as are ever lent.
pub fn row_words(n: u64) -> usize {
    n.min(MOST_ROOM as u64) as usize * ROW_WORDS
}
