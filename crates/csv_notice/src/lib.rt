// The lines of standard error.
#![tactic(auto)]

ghost use Rattle.std.specs.Prelude.{◌+◌, ◌≤◌, length};
ghost use Rattle.csv_figures.specs.Out.{Wrote};
ghost use Rattle.csv_line.specs.Notice.{notice_text};

use csv_figures::put_byte;
use csv_line::{put_bytes, put_crlf};

// A line of standard error: a warning, or a refusal.
pub fn put_notice(out: &mut [u8], n: usize, line: u64, number: u64, refused: bool) -> usize
    requires { n + 32 ≤ length out.old }
    ensures { Wrote out.old n (notice_text line number refused) out.new result }
{
    let a = csv_figures::put_whole(out, n, line);
    let b = put_byte(out, a, b',');
    let c = csv_figures::put_whole(out, b, number);
    if refused {
        let d = put_bytes(out, c, b",refused");
        return put_crlf(out, d);
    }
    put_crlf(out, c)
}
