// The two headers of row text: reading either, and writing the second.
#![tactic(auto)]

ghost use Rattle.std.specs.Prelude.{◌≡◌, ◌++◌, ◌+◌, ◌≤◌, length};
ghost use Rattle.csv_words.specs.Words.{same};
ghost use Rattle.csv_figures.specs.Out.{Wrote};
ghost use Rattle.csv_line.specs.LineText.{crlf};
ghost use Rattle.csv_header.specs.Header.{header, header_out};

use csv_line::{put_bytes, put_crlf};

const HEADER: &[u8] = b"line_no,gg01_motion,gg06_plane_select,X,Y,Z,I,J,K,CR,TURN,PW,SD,F";

const HEADER_OUT: &[u8] =
    b"line_no,gg01_motion,gg06_plane_select,X,Y,Z,I,J,K,CR,TURN,PW,SD,F,flattened";

// Whether the text of a line is the first header.
pub fn is_header(text: &[u8]) -> bool
    ensures { result ≡ same header text.now }
{
    HEADER == text
}

// Whether the text of a line is the second header.
pub fn is_header_out(text: &[u8]) -> bool
    ensures { result ≡ same header_out text.now }
{
    HEADER_OUT == text
}

// The second header, with the end of its line.
pub fn put_header(out: &mut [u8], n: usize) -> usize
    requires { n + 80 ≤ length out.old }
    ensures { Wrote out.old n (header_out ++ crlf) out.new result }
{
    let a = put_bytes(out, n, HEADER_OUT);
    put_crlf(out, a)
}
