// What comes next in a run of the row text program: room is made for what a line can say, and then a line is found, or more
// is read.
#![tactic(auto)]

ghost use Rattle.std.specs.Prelude.{length};
ghost use Rattle.csv_next.specs.Next.{Held, Ready};

use csv_io::emptied;
use csv_out::Run;
use csv_reading::Reading;
use csv_status::GOES_ON;
use std::io::{Read, Write};
use text_lines::{Found, Turn, next_turn};

// What the turn found, with room for what a line can say; where there is none, `over` says what failed.
#[derive(Clone, Copy)]
pub struct Next {
    pub turn: Turn,
    pub run: Run,
    pub over: u64,
}

// Room is made, and then the reading goes on by one turn.
pub fn next_found<R: Read, W: Write, E: Write>(
    s: Reading,
    buf: &mut [u8],
    out: &[u8],
    err: &[u8],
    input: &mut R,
    output: &mut W,
    errors: &mut E,
) -> Next
    requires { Held s (length buf.old) (length out.now) (length err.now) }
    ensures { Ready s buf.old out.now err.now result buf.new }
{
    let room = emptied(s.run, out, err, output, errors);
    let run = room.run;
    if room.over != GOES_ON {
        return Next {
            turn: Turn {
                from: s.at,
                at: s.at,
                end: s.end,
                found: Found::Failed,
            },
            run,
            over: room.over,
        };
    }
    let turn = next_turn(input, buf, s.at, s.end);
    Next {
        turn,
        run,
        over: room.over,
    }
}
