// The headers of a night's tables.
#![tactic(auto)]

ghost use Rattle.std.specs.Prelude.{◌++◌, ◌+◌, ◌≤◌, length};
ghost use Rattle.csv_figures.specs.Out.{Wrote};
ghost use Rattle.csv_line.specs.LineText.{crlf};
ghost use Rattle.night_header.specs.Header.{tries_header, curved_header, header_room};

use csv_line::{put_bytes, put_crlf};

// The header of the tries.
pub fn put_tries_header(out: &mut [u8], n: usize) -> usize
    requires { n + header_room ≤ length out.old }
    ensures { Wrote out.old n (tries_header ++ crlf) out.new result }
{
    let a = put_bytes(
        out,
        n,
        b"job,file,checksum,try,tolerance,closed,blocks,rows,marked,refusal,refusal_line,warning_1,warning_2,warning_3,warning_4,\
        warning_5,warning_6,warning_7,warning_8,warning_9,warning_10,warning_11,warning_12,warning_13,warning_14,warning_15,curved,passed",
    );
    put_crlf(out, a)
}

// The header of the blocks that stay curved.
pub fn put_curved_header(out: &mut [u8], n: usize) -> usize
    requires { n + header_room ≤ length out.old }
    ensures { Wrote out.old n (curved_header ++ crlf) out.new result }
{
    let a = put_bytes(out, n, b"job,try,line,motion,warning");
    put_crlf(out, a)
}
