// A row out: the columns that its line passes over, and its end.
#![tactic(auto)]

ghost use Rattle.std.specs.Prelude.{◌≡◌, ◌∷◌, ◌++◌, ◌+◌, ◌/◌, ◌%◌, ◌^◌, ◌≤◌, ◌<◌, eqb, length};
ghost use Rattle.layout.specs.Layout.{row_words, c_offset};
ghost use Rattle.csv_figures.specs.Out.{Wrote};
ghost use Rattle.csv_line.specs.LineText.{comma, crlf, column_count};
ghost use Rattle.csv_write.specs.Passing.{Skipped};
ghost use Rattle.csv_write.specs.Writer.{mark_text};

use csv_columns::{F_COLUMN, I_COLUMN};
use csv_figures::put_byte;
use csv_line::put_crlf;
use layout::{C_OFFSET, R_MARK, R_PRESENT};

// The masks of the seven codes from I to SD are below this.
const OFFSETS: u64 = 128;

// Whether a row with these cells has none from I to SD.
fn no_offsets(mask: u64) -> bool
    ensures { result ≡ eqb (mask / 2 ^ c_offset % 128) 0 }
{
    (mask >> C_OFFSET) % OFFSETS == 0
}

// Where columns of absent cells are passed: the next column, and its place.
#[derive(Clone, Copy)]
pub struct Passed {
    pub at: usize,
    pub i: usize,
}

// The columns from I to SD together, where i is the first of them and none has a cell: most rows are such. Elsewhere none is passed.
pub fn pass_offsets(row: &[u64], out: &mut [u8], n: usize, i: usize) -> Passed
    requires { (length row.now ≡ row_words) × ((i < column_count) × (n + 18 ≤ length out.old)) }
    ensures { Skipped row.now out.old n i out.new result }
{
    if i == I_COLUMN && no_offsets(row[R_PRESENT]) {
        let at = csv_line::put_bytes(out, n, b",,,,,,,");
        return Passed { at, i: F_COLUMN };
    }
    Passed { at: n, i }
}

// The mark, and the end of the line.
pub fn put_end(row: &[u64], out: &mut [u8], n: usize) -> usize
    requires { (length row.now ≡ row_words) × (n + 4 ≤ length out.old) }
    ensures { Wrote out.old n (comma ∷ (mark_text row.now ++ crlf)) out.new result }
{
    let a = put_byte(out, n, b',');
    if row[R_MARK] == 0 {
        return put_crlf(out, a);
    }
    let b = put_byte(out, a, b'1');
    put_crlf(out, b)
}
