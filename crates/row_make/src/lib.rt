// A made row, written word by word.
#![tactic(auto)]

ghost use Rattle.std.specs.Prelude.{◌≡◌, ◌+◌, ◌≤◌, length};
ghost use Rattle.floats.specs.Lists.{spliced};
ghost use Rattle.layout.specs.Layout.{cells, row_words};
ghost use Rattle.row_made.specs.Asks.{MadeOf, first_cells, made_cells, made_by};

use layout::R_CELLS;
use row_lay::{lay_cells, put_cells, put_head};
use row_made::{Made, made_head, ridden};

// The cells of the first row of a group: what rides, and the point's own axes over it.
fn put_first_cells(rows: &mut [u64], at: usize, row: &[u64], made: Made, words: &[u64])
    requires { MadeOf row.now made words.now × (at + cells ≤ length rows.old) }
    ensures { rows.new ≡ spliced rows.old at (first_cells row.now made words.now) }
{
    put_cells(rows, at, ridden(row, made.axes), &row[R_CELLS..]);
    lay_cells(rows, at, made.mask & made.axes, words);
}

fn put_made_cells(rows: &mut [u64], at: usize, row: &[u64], made: Made, words: &[u64])
    requires { MadeOf row.now made words.now × (at + cells ≤ length rows.old) }
    ensures { rows.new ≡ spliced rows.old at (made_cells row.now made words.now) }
{
    if made.first {
        put_first_cells(rows, at, row, made, words);
    } else {
        put_cells(rows, at, made.mask, words);
    }
}

// Writes, from word `at` on, a row of the group of `row`: its geometric cells are the words of the mask, and the first
// row has the motion and what rides along.
pub fn put_made(rows: &mut [u64], at: usize, row: &[u64], made: Made, words: &[u64])
    requires { MadeOf row.now made words.now × (at + row_words ≤ length rows.old) }
    ensures { rows.new ≡ spliced rows.old at (made_by row.now made words.now) }
{
    put_head(rows, at, made_head(row, made));
    put_made_cells(rows, at + R_CELLS, row, made, words);
}
