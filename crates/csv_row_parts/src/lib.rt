// The head of a row's line, and its cells.
#![tactic(auto)]

ghost use Rattle.std.specs.Prelude.{◌≡◌, ◌∷◌, ◌+◌, ◌≤◌, ◌<◌, length};
ghost use Rattle.layout.specs.Layout.{row_words};
ghost use Rattle.floats.specs.Lists.{all};
ghost use Rattle.row_cells.specs.Row.{motion_of, plane_of};
ghost use Rattle.csv_figures.specs.Out.{Wrote};
ghost use Rattle.csv_line.specs.LineText.{comma, column_count, tailed, joined};
ghost use Rattle.csv_write.specs.Writer.{cell_text, cell_shown, cell_texts, head_fields, Tried};

use csv_columns::{COLUMNS, code_at};
use csv_figures::put_byte;
use csv_write::pass_offsets;
use layout::{R_CELLS, R_LINE, R_MOTION, R_PLANE, R_PRESENT};

// A comma and the cell of column i.
fn put_cell(row: &[u64], out: &mut [u8], n: usize, i: usize) -> Option<usize>
    requires { (length row.now ≡ row_words) × ((i < column_count) × (n + 18 ≤ length out.old)) }
    ensures { Tried (cell_shown row.now i) (comma ∷ cell_text row.now i) out.old n out.new result }
{
    let at = put_byte(out, n, b',');
    let code = code_at(i);
    if row_cells::has_bit(row[R_PRESENT], code as u64) {
        return csv_figures::put_number(out, at, floats::of_bits(row[R_CELLS + code]));
    }
    Some(at)
}

pub fn put_cells(row: &[u64], out: &mut [u8], n: usize) -> Option<usize>
    requires { (length row.now ≡ row_words) × (n + 198 ≤ length out.old) }
    ensures { Tried (all column_count (cell_shown row.now)) (tailed (cell_texts row.now column_count))
        out.old n out.new result }
{
    let mut at = n;
    let mut i: usize = 0;
    // No for: where none of the columns from I to SD has a cell they are passed in one step, which the count follows.
    while i < COLUMNS {
        let passed = pass_offsets(row, out, at, i);
        at = put_cell(row, out, passed.at, passed.i)?;
        i = passed.i + 1;
    }
    Some(at)
}

// The source line, the motion word and the plane word.
pub fn put_head(row: &[u64], out: &mut [u8], n: usize) -> usize
    requires { (length row.now ≡ row_words) × ((motion_of row.now < 16) × ((plane_of row.now < 20) × (n + 26 ≤ length out.old))) }
    ensures { Wrote out.old n (joined (head_fields row.now)) out.new result }
{
    let a = csv_figures::put_whole(out, n, row[R_LINE]);
    let b = put_byte(out, a, b',');
    let c = csv_words::put_motion(out, b, row[R_MOTION] as usize);
    let d = put_byte(out, c, b',');
    csv_words::put_plane(out, d, row[R_PLANE] as usize)
}
