// The rest of a line of tries, behind its tolerance.
#![tactic(auto)]

ghost use Rattle.std.specs.Prelude.{◌≡◌, ◌+◌, ◌≤◌, length};
ghost use Rattle.night_columns.specs.Columns.{columns};
ghost use Rattle.night_rest.specs.Rest.{rest_room, PutRest};

use csv_line::put_crlf;
use night_columns::{C_CLOSED, C_LINE, C_REFUSAL, C_WARNINGS, COLUMNS};
use night_pieces::{put_numbers, put_refusal};

// Columns of numbers that stand one behind another: before the refusal, and from the warnings on.
const COUNTED: usize = C_REFUSAL - C_CLOSED;

const LAST: usize = COLUMNS - C_WARNINGS;

// The closed, the counts, the refusal, the warnings and the line's end.
pub fn put_rest(out: &mut [u8], n: usize, numbers: &[u64]) -> usize
    requires { (length numbers.now ≡ columns) × (n + rest_room ≤ length out.old) }
    ensures { PutRest numbers.now out.old n out.new result }
{
    let a = put_numbers(out, n, numbers, C_CLOSED, COUNTED);
    let b = put_refusal(out, a, numbers[C_REFUSAL], numbers[C_LINE]);
    let c = put_numbers(out, b, numbers, C_WARNINGS, LAST);
    put_crlf(out, c)
}
