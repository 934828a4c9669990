// The cells of a line in: the fields behind its words, each into its word of a row.
#![tactic(auto)]

ghost use Rattle.std.specs.Prelude.{◌≡◌, ◌==◌, ◌+◌, ◌*◌, ◌^◌, ◌≤◌, ◌<◌, length, drop};
ghost use Rattle.std.specs.List.{position};
ghost use Rattle.layout.specs.Layout.{cells, row_words};
ghost use Rattle.csv_line.specs.LineText.{column_count, comma, parted};
ghost use Rattle.csv_cells.specs.Taking.{reach, CellIs, CellsRead, TookOr};

use csv_columns::{COLUMNS, code_at};
use layout::{R_CELLS, R_PRESENT};

// Where the next field begins, and the presence mask so far.
#[derive(Clone, Copy)]
pub struct Taken {
    pub next: usize,
    pub mask: u64,
}

fn first_comma(text: &[u8]) -> Option<usize>
    ensures { result ≡ position (λ b. b == comma) text.now }
{
    text.iter().position(|b| *b == b',')
}

// The place of the first comma of text at or behind `at`, or its end.
pub fn field_end(text: &[u8], at: usize) -> usize
    requires { at ≤ length text.now }
    ensures { result ≡ at + reach (drop at text.now) }
{
    let rest = &text[at..];
    at + first_comma(rest).unwrap_or(rest.len())
}

// The bit of a cell's code.
fn at_code(bit: u64, code: usize) -> u64
    requires { (bit ≤ 1) × (code < cells) }
    ensures { result ≡ bit * 2 ^ code }
{
    bit << code
}

// What the field of a cell holds: the bits of its number, or nothing where it is empty; none where it is no cell.
fn read_cell(field: &[u8]) -> Option<Option<u64>>
    ensures { CellIs field.now result }
{
    if field.is_empty() {
        return Some(None);
    }
    let x = csv_values::read_number(field)?;
    Some(Some(floats::bits(x)))
}

// The cell of column i, whose field begins at `at`, into its word of row; none where it is no cell.
fn take_cell(text: &[u8], at: usize, i: usize, mask: u64, row: &mut [u64]) -> Option<Taken>
    requires { (at ≤ length text.now) × ((i < column_count) × ((length row.old ≡ row_words) × (mask < 2 ^ 32))) }
    ensures { TookOr text.now at i mask row.old row.new result }
{
    let end = field_end(text, at);
    let cell = read_cell(&text[at..end])?;
    let code = code_at(i);
    row[R_CELLS + code] = cell.unwrap_or(0);
    let bit = u64::from(cell.is_some());
    Some(Taken {
        next: end + 1,
        mask: mask + at_code(bit, code),
    })
}

// The cells of text into row, in which none stands yet, and whether they are those of the layout.
pub fn read_cells(text: &[u8], row: &mut [u64]) -> bool
    requires { length row.old ≡ row_words }
    ensures { CellsRead (parted text.now) row.old row.new result }
{
    let mut at: usize = 0;
    let mut mask: u64 = 0;
    for i in 0..COLUMNS {
        if at > text.len() {
            return false;
        }
        let Some(taken) = take_cell(text, at, i, mask, row) else {
            return false;
        };
        at = taken.next;
        mask = taken.mask;
    }
    if at <= text.len() {
        return false;
    }
    row[R_PRESENT] = mask;
    true
}
