// The pieces that a line of tries is written of.
#![tactic(auto)]

ghost use Rattle.std.specs.Prelude.{◌≡◌, ◌∷◌, ◌+◌, ◌*◌, ◌≤◌, length};
ghost use Rattle.csv_figures.specs.Out.{Wrote};
ghost use Rattle.csv_figures.specs.Write.{whole_text};
ghost use Rattle.csv_line.specs.LineText.{comma, tailed};
ghost use Rattle.night_columns.specs.Columns.{columns};
ghost use Rattle.night_pieces.specs.Pieces.{field_room, front_room, refusal_texts, PutNumbers, PutFront};

use csv_figures::{put_byte, put_whole};
use csv_line::put_bytes;
use night_columns::{C_CHECKSUM, C_JOB, C_TOLERANCE};

// Columns of numbers that stand one behind another before the tolerance.
const CHECKED: usize = C_TOLERANCE - C_CHECKSUM;

// A comma and a number.
fn put_next(out: &mut [u8], n: usize, v: u64) -> usize
    requires { n + field_room ≤ length out.old }
    ensures { Wrote out.old n (comma ∷ whole_text v) out.new result × (result ≤ n + field_room) }
{
    let a = put_byte(out, n, b',');
    put_whole(out, a, v)
}

// A comma and a text.
fn put_text(out: &mut [u8], n: usize, s: &[u8]) -> usize
    requires { n + length s.now + 1 ≤ length out.old }
    ensures { Wrote out.old n (comma ∷ s.now) out.new result }
{
    let a = put_byte(out, n, b',');
    put_bytes(out, a, s)
}

// The numbers of `count` columns from `from` on, each behind a comma.
pub fn put_numbers(out: &mut [u8], n: usize, numbers: &[u64], from: usize, count: usize) -> usize
    requires { (from + count ≤ length numbers.now) × (n + field_room * count ≤ length out.old) }
    ensures { PutNumbers numbers.now from count out.old n out.new result }
{
    let mut at = n;
    for v in &numbers[from..from + count] {
        at = put_next(out, at, *v);
    }
    at
}

// The refusal and its line, or two empty fields.
pub fn put_refusal(out: &mut [u8], n: usize, refusal: u64, line: u64) -> usize
    requires { n + 2 * field_room ≤ length out.old }
    ensures { Wrote out.old n (tailed (refusal_texts refusal line)) out.new result × (result ≤ n + 2 * field_room) }
{
    if refusal == 0 {
        return put_bytes(out, n, b",,");
    }
    let a = put_next(out, n, refusal);
    put_next(out, a, line)
}

// The line of a try up to its tolerance.
pub fn put_front(out: &mut [u8], n: usize, numbers: &[u64], file: &[u8], tolerance: &[u8]) -> usize
    requires { (length numbers.now ≡ columns) × (n + length file.now + length tolerance.now + front_room ≤ length out.old) }
    ensures { PutFront numbers.now file.now tolerance.now out.old n out.new result }
{
    let a = put_whole(out, n, numbers[C_JOB]);
    let b = put_text(out, a, file);
    let c = put_numbers(out, b, numbers, C_CHECKSUM, CHECKED);
    put_text(out, c, tolerance)
}
