// Draws the flattened row text of standard input as one SVG, in the plane that `--plane` names, X and Y where it is not given.
// Memory is of a fixed size and is all here; picture_run has the run.
#![tactic(auto)]

ghost use Rattle.picture_pen.specs.Drawing.{PlaneOk};

use csv_io::{ERR_ROOM, OUT_ROOM};
use csv_status::{report, tell};
use picture_run::{INPUT, whole_run};
use picture_span::Plane;
use std::env::Env;

// The codes of the axes.
const X: usize = 0;

const Y: usize = 1;

const Z: usize = 2;

// The argument that names the plane, behind `--plane`.
const PLANE_ARGUMENT: usize = 2;

// The plane of a word of two letters: ZX, YZ, and else XY.
fn plane_of(word: [u8; 2]) -> Plane
    ensures { PlaneOk result }
{
    match word[0] {
        b'Z' => Plane { across: Z, up: X },
        b'Y' => Plane { across: Y, up: Z },
        _ => Plane { across: X, up: Y },
    }
}

fn asked_plane<R: Env>(rt: &R) -> Plane
    ensures { PlaneOk result }
{
    let mut word = [0u8; 2];
    match rt.arg(PLANE_ARGUMENT, &mut word) {
        Ok(2) => plane_of(word),
        _ => plane_of([0u8; 2]),
    }
}

fn main(rt: HostRuntime) {
    let mut buf = [0u8; INPUT];
    let mut out = [0u8; OUT_ROOM];
    let mut err = [0u8; ERR_ROOM];
    let plane = asked_plane(&rt);
    let mut input = rt.stdin();
    let mut output = rt.stdout();
    let mut errors = rt.stderr();
    let end = whole_run(
        plane,
        &mut buf,
        &mut out,
        &mut err,
        &mut input,
        &mut output,
        &mut errors,
    );
    tell(b"picture", end.over, &mut errors);
    report(&rt, end.over, end.refused);
}
