// A row's words laid down: those before its cells, and its cells by a mask.
#![tactic(auto)]

ghost use Rattle.std.specs.Prelude.{◌≡◌, ◌+◌, ◌≤◌, length};
ghost use Rattle.floats.specs.Lists.{upto, spliced};
ghost use Rattle.layout.specs.Layout.{cells, r_cells};
ghost use Rattle.row_lay.specs.Over.{over_word, zeros};
ghost use Rattle.row_lay.specs.Asks.{Lays, Laid, head_words};

use layout::{CELLS, R_CARRY, R_LINE, R_MARK, R_MOTION, R_PLANE, R_PRESENT};
use row_cells::{lowest_bit, other_bits};

// The words of a row before its cells.
#[derive(Clone, Copy)]
pub struct Head {
    pub line: u64,
    pub motion: u64,
    pub plane: u64,
    pub mark: u64,
    pub carry: u64,
    pub present: u64,
}

pub fn put_head(rows: &mut [u64], at: usize, head: Head)
    requires { at + r_cells ≤ length rows.old }
    ensures { rows.new ≡ spliced rows.old at (head_words head) }
{
    rows[at + R_LINE] = head.line;
    rows[at + R_MOTION] = head.motion;
    rows[at + R_PLANE] = head.plane;
    rows[at + R_MARK] = head.mark;
    rows[at + R_CARRY] = head.carry;
    rows[at + R_PRESENT] = head.present;
}

fn clear_cells(rows: &mut [u64], at: usize)
    requires { at + cells ≤ length rows.old }
    ensures { rows.new ≡ spliced rows.old at (upto zeros cells) }
{
    rows[at..at + CELLS].fill(0);
}

// Lays over the cells from word `at` on the words that a mask has. No other word is read.
pub fn lay_cells(rows: &mut [u64], at: usize, mask: u64, words: &[u64])
    requires { Lays rows.old at mask words.now }
    ensures { Laid rows.old at mask words.now rows.new }
{
    let mut rest = mask;
    // No `for`: the turns are the bits that are left, and the mask has few of them.
    while rest != 0 {
        let k = lowest_bit(rest);
        rows[at + k] = words[k];
        rest = other_bits(rest);
    }
}

// The cells of a mask, the others zero.
pub fn put_cells(rows: &mut [u64], at: usize, mask: u64, words: &[u64])
    requires { Lays rows.old at mask words.now }
    ensures { rows.new ≡ spliced rows.old at (upto (over_word mask words.now zeros) cells) }
{
    clear_cells(rows, at);
    lay_cells(rows, at, mask, words);
}
