// Lines: their ends, and bytes behind one another.
#![tactic(auto)]

ghost use Rattle.std.specs.Prelude.{◌≡◌, ◌+◌, ◌≤◌, length};
ghost use Rattle.csv_figures.specs.Out.{Wrote};
ghost use Rattle.csv_line.specs.LineText.{crlf, end_of};

use csv_figures::put_byte;

// Where the text of a line ends and its CRLF begins.
pub fn text_end(line: &[u8]) -> Option<usize>
    ensures { result ≡ end_of line.now }
{
    let text = line.strip_suffix(b"\r\n")?;
    Some(text.len())
}

pub fn put_bytes(out: &mut [u8], n: usize, s: &[u8]) -> usize
    requires { n + length s.now ≤ length out.old }
    ensures { Wrote out.old n s.now out.new result }
{
    let end = n + s.len();
    out[n..end].copy_from_slice(s);
    end
}

pub fn put_crlf(out: &mut [u8], n: usize) -> usize
    requires { n + 2 ≤ length out.old }
    ensures { Wrote out.old n crlf out.new result }
{
    let a = put_byte(out, n, b'\r');
    put_byte(out, a, b'\n')
}
