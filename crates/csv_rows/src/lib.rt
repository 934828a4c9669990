// Rows out: the text of each row's line, one after another.
#![tactic(auto)]

ghost use Rattle.std.specs.Prelude.{◌≡◌, ◌+◌, ◌*◌, ◌≤◌, length};
ghost use Rattle.layout.specs.Layout.{row_words};
ghost use Rattle.csv_write.specs.Writer.{row_room, row_text, writable, rows_text, rows_writable, Tried};

use csv_row_parts::{put_cells, put_head};
use csv_write::put_end;
use layout::{LINE_NUMBERS, R_LINE, R_MOTION, R_PLANE, ROW_WORDS};

const MOTIONS: u64 = 16;

// The line of a row from n on, where it has one. None is longer than 224 bytes.
fn write_row(row: &[u64], out: &mut [u8], n: usize) -> Option<usize>
    requires { (length row.now ≡ row_words) × (n + row_room ≤ length out.old) }
    ensures { Tried (writable row.now) (row_text row.now) out.old n out.new result }
{
    if row[R_LINE] >= LINE_NUMBERS
        || row[R_MOTION] >= MOTIONS
        || !row_check::plane_ok(row[R_PLANE])
    {
        return None;
    }
    let a = put_head(row, out, n);
    let b = put_cells(row, out, a)?;
    Some(put_end(row, out, b))
}

// The lines of the first `count` rows from n on, where each has one.
pub fn write_rows(rows: &[u64], count: usize, out: &mut [u8], n: usize) -> Option<usize>
    requires { (count * row_words ≤ length rows.now) × (n + row_room * count ≤ length out.old) }
    ensures { Tried (rows_writable rows.now count) (rows_text rows.now count) out.old n out.new result }
{
    let mut at = n;
    for i in 0..count {
        let from = i * ROW_WORDS;
        let to = from + ROW_WORDS;
        at = write_row(&rows[from..to], out, at)?;
    }
    Some(at)
}
