// The layout: each number of a row, a saved state and a store, named once, as specs/Layout has them.
#![tactic(auto)]

ghost use Rattle.std.specs.Prelude.{◌≡◌, ◌/◌, eqb, length};
ghost use Rattle.layout.specs.Layout.{row_words, state_words};

// X Y Z A B C U V W E, then A2 B2 C2 U2 V2 W2.
pub const AXIS_CODES: usize = 16;

// N F S D T, which ride on a group's first row.
pub const RIDER_CODES: usize = 5;

// Blocks that a spline holds at most, and its degree at most.
pub const MOST_HELD: u64 = 256;

pub const MOST_DEGREE: u64 = 256;

// Codes that an axis list may name: it is no longer than they are.
pub const LIST_CODES: usize = AXIS_CODES + RIDER_CODES;

pub const LAST_CODE: usize = LIST_CODES - 1;

// I, then J, then K, as the axes X, Y, Z.
pub const C_OFFSET: usize = LIST_CODES;

pub const C_CR: usize = C_OFFSET + 3;

pub const C_TURN: usize = C_CR + 1;

pub const C_PW: usize = C_TURN + 1;

pub const C_SD: usize = C_PW + 1;

pub const C_PL: usize = C_SD + 1;

pub const CELLS: usize = C_PL + 1;

// Masks of cells, of the codes of a list and of axes are below these.
pub const CELL_MASKS: u64 = 1 << CELLS as u64;

pub const LIST_MASKS: u64 = 1 << LIST_CODES as u64;

pub const AXIS_MASKS: u64 = 1 << AXIS_CODES as u64;

// Words of a row.
pub const R_LINE: usize = 0;

pub const R_MOTION: usize = 1;

pub const R_PLANE: usize = 2;

pub const R_MARK: usize = 3;

pub const R_CARRY: usize = 4;

pub const R_PRESENT: usize = 5;

pub const R_CELLS: usize = 6;

pub const ROW_WORDS: usize = R_CELLS + CELLS;

// A line number has 32 bits.
pub const LINE_NUMBERS: u64 = 0x1_0000_0000;

// Words of a saved state.
pub const W_TOLERANCE: usize = 0;

pub const W_AXIS_COUNT: usize = 1;

pub const W_AXES: usize = 2;

pub const W_MOTION: usize = W_AXES + LIST_CODES;

pub const W_PLANE: usize = W_MOTION + 1;

pub const W_KNOWN: usize = W_PLANE + 1;

pub const W_WARNED: usize = W_KNOWN + 1 + AXIS_CODES;

pub const W_START: usize = W_WARNED + 1;

pub const W_DEGREE: usize = W_START + 1 + AXIS_CODES;

pub const W_HELD: usize = W_DEGREE + 1;

pub const STATE_WORDS: usize = W_HELD + 1;

// Points of a curve: its start, and one for each block.
pub const MOST_POINTS: usize = MOST_HELD as usize + 1;

// Whether words are as many as a saved state has.
pub fn is_state(words: &[u64]) -> bool
    ensures { result ≡ eqb (length words.now) state_words }
{
    words.len() == STATE_WORDS
}

// How many whole rows words have room for.
pub fn whole_rows(words: &[u64]) -> usize
    ensures { result ≡ length words.now / row_words }
{
    words.len() / ROW_WORDS
}
