// What a line of input asks for.
#![tactic(auto)]

ghost use Rattle.layout.specs.Layout.{row_words};
ghost use Rattle.std.specs.Prelude.{length, ◌≡◌};

use layout::{R_CARRY, R_CELLS, R_LINE, R_MARK, R_MOTION, R_PLANE, R_PRESENT, ROW_WORDS};
use replay_fields::{axis_list, cells, decimal, hex, numbers};
use replay_memory::{MOST_BLOCKS, MOST_LENGTH, MOST_ROOM};
use std::str::{Split, from_utf8};

// A call. Codes and rows are in the words that reading filled, and `count` is how many.
#[derive(Clone, Copy)]
pub enum Call {
    Start { tol: u64, count: usize },
    Seed { code: u64, bits: u64 },
    Push { count: usize },
    Close,
}

// A change of what is lent or of what it holds.
#[derive(Clone, Copy)]
pub enum Change {
    Room(u64),
    Blocks(u64),
    Length(u64),
    Poke { place: u64, word: u64 },
    PokeStore { place: u64, word: u64 },
}

#[derive(Clone, Copy)]
pub enum Ask {
    Nothing,
    Call(Call),
    Change(Change),
}

// BITS AXES
fn start(fields: &mut Split<'_, char>, words: &mut [u64]) -> Option<Call> {
    let tol = hex(fields.next()?)?;
    let count = axis_list(fields.next()?, words)?;
    Some(Call::Start { tol, count })
}

// CODE BITS
fn seed(fields: &mut Split<'_, char>) -> Option<Call> {
    let code = decimal(fields.next()?)?;
    let bits = hex(fields.next()?)?;
    Some(Call::Seed { code, bits })
}

// LINE MOTION PLANE CARRY PRESENCE BITS..
fn fill_row(fields: &mut Split<'_, char>, row: &mut [u64]) -> Option<()>
    requires { length row.old ≡ row_words }
{
    row[R_LINE] = decimal(fields.next()?)?;
    row[R_MOTION] = decimal(fields.next()?)?;
    row[R_PLANE] = decimal(fields.next()?)?;
    row[R_MARK] = 0;
    row[R_CARRY] = hex(fields.next()?)?;
    let present = hex(fields.next()?)?;
    row[R_PRESENT] = present;
    cells(fields, present, &mut row[R_CELLS..])
}

fn push(fields: &mut Split<'_, char>, words: &mut [u64; 64]) -> Option<Call> {
    fill_row(fields, &mut words[..ROW_WORDS])?;
    Some(Call::Push { count: ROW_WORDS })
}

// HEX..
fn raw_push(fields: &mut Split<'_, char>, words: &mut [u64]) -> Option<Call> {
    let count = numbers(fields, hex, words)?;
    Some(Call::Push { count })
}

// The call of a line that begins with `word`.
fn read_call(word: &str, fields: &mut Split<'_, char>, words: &mut [u64; 64]) -> Option<Call> {
    match word {
        "start" => start(fields, words),
        "seed" => seed(fields),
        "push" => push(fields, words),
        "words" => raw_push(fields, words),
        "close" => Some(Call::Close),
        _ => None,
    }
}

// A number that is no more than `most`.
fn at_most(most: usize, fields: &mut Split<'_, char>) -> Option<u64> {
    let n = decimal(fields.next()?)?;
    (n <= most as u64).then_some(n)
}

// I HEX
fn place_and_word(fields: &mut Split<'_, char>) -> Option<(u64, u64)> {
    let place = decimal(fields.next()?)?;
    let word = hex(fields.next()?)?;
    Some((place, word))
}

// The change of a line that begins with `word`.
fn read_change(word: &str, fields: &mut Split<'_, char>) -> Option<Change> {
    match word {
        "room" => at_most(MOST_ROOM, fields).map(Change::Room),
        "blocks" => at_most(MOST_BLOCKS, fields).map(Change::Blocks),
        "length" => at_most(MOST_LENGTH, fields).map(Change::Length),
        "poke" => place_and_word(fields).map(|(place, word)| Change::Poke { place, word }),
        "pokestore" => {
            place_and_word(fields).map(|(place, word)| Change::PokeStore { place, word })
        }
        _ => None,
    }
}

// What a line that is no comment asks for: the first word decides, and no field is left behind the last.
fn read_fields(line: &str, words: &mut [u64; 64]) -> Option<Ask> {
    let mut fields = line.split(' ');
    let word = fields.next()?;
    let ask = match read_change(word, &mut fields) {
        Some(change) => Ask::Change(change),
        None => Ask::Call(read_call(word, &mut fields, words)?),
    };
    fields.next().is_none().then_some(ask)
}

// What a line asks for, without its LF; none where it is bad.
pub fn read_ask(line: &[u8], words: &mut [u64; 64]) -> Option<Ask> {
    if line.starts_with(b"#") {
        return Some(Ask::Nothing);
    }
    read_fields(from_utf8(line).ok()?, words)
}
