// What comes next in a try's file: room is made for what a call can answer, and then a line is found or more is read.
#![tactic(auto)]

ghost use Rattle.std.specs.Prelude.{◌≤◌, length};
ghost use Rattle.night_found.specs.Next.{Emptied, Held, Ready};

use csv_status::GOES_ON;
use night_course::TryRun;
use night_flush::{Files, KEPT, Left, Reading, flush};
use text_lines::{Found, Turn, next_turn};

// What the turn found, with room for what a call can answer; where there is none, `over` says what failed.
#[derive(Clone, Copy)]
pub struct Next {
    pub turn: Turn,
    pub run: TryRun,
    pub over: u64,
}

// Makes room for what a call can answer: where much waits, all of it is handed over.
fn made_room(files: Files<'_>, run: TryRun, out: &[u8], listed: &[u8]) -> Left
    requires { (run.out ≤ length out.now) × (run.listed ≤ length listed.now) }
    ensures { Emptied run result }
{
    if run.out > KEPT {
        return flush(files, run, out, listed);
    }
    if run.listed > KEPT {
        return flush(files, run, out, listed);
    }
    Left { run, over: GOES_ON }
}

// Room is made, and then the reading goes on by one turn.
pub fn next_found(files: Files<'_>, s: Reading, buf: &mut [u8], out: &[u8], listed: &[u8]) -> Next
    requires { Held s (length buf.old) (length out.now) (length listed.now) }
    ensures { Ready s buf.old result buf.new }
{
    let before = s.run;
    let room = made_room(files, before, out, listed);
    let run = room.run;
    if room.over != GOES_ON {
        return Next {
            turn: Turn {
                from: s.at,
                at: s.at,
                end: s.end,
                found: Found::Failed,
            },
            run,
            over: room.over,
        };
    }
    let mut input = files.input;
    let turn = next_turn(&mut input, buf, s.at, s.end);
    Next {
        turn,
        run,
        over: room.over,
    }
}
