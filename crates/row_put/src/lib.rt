// A row that goes out unchanged.
#![tactic(auto)]

ghost use Rattle.std.specs.Prelude.{◌≡◌, ◌+◌, ◌≤◌, length};
ghost use Rattle.floats.specs.Lists.{spliced};
ghost use Rattle.layout.specs.Layout.{row_words};
ghost use Rattle.row_cells.specs.Row.{out_row};
ghost use Rattle.row_lay.specs.Asks.{head_words};
ghost use Rattle.row_put.specs.Asks.{out_head};

use layout::{CELL_MASKS, R_CARRY, R_CELLS, R_LINE, R_MOTION, R_PLANE, R_PRESENT};
use row_lay::{Head, put_cells, put_head};

fn out_head(row: &[u64]) -> Head
    requires { length row.now ≡ row_words }
    ensures { head_words result ≡ out_head row.now }
{
    let line = row[R_LINE];
    let motion = row[R_MOTION];
    let plane = row[R_PLANE];
    let carry = row[R_CARRY];
    let present = row[R_PRESENT] % CELL_MASKS;
    Head {
        line: line,
        motion: motion,
        plane: plane,
        mark: 0,
        carry: carry,
        present: present,
    }
}

// Writes, from word `at` on, the row that goes out for `row` unchanged.
pub fn put_row(rows: &mut [u64], at: usize, row: &[u64])
    requires { (length row.now ≡ row_words) × (at + row_words ≤ length rows.old) }
    ensures { rows.new ≡ spliced rows.old at (out_row row.now) }
{
    put_head(rows, at, out_head(row));
    put_cells(
        rows,
        at + R_CELLS,
        row[R_PRESENT] % CELL_MASKS,
        &row[R_CELLS..],
    );
}
