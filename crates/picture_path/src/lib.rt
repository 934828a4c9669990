// The pieces of a path's text: its beginning at a point, lines to points, its end; and which path is open.
#![tactic(auto)]

ghost use Rattle.std.specs.Prelude.{◌≡◌, ◌+◌, ◌≤◌, length};
ghost use Rattle.csv_figures.specs.Out.{Wrote};
ghost use Rattle.picture_path.specs.PathText.{line_text, open_text, end_text, goes_on, one_more, path_after};

use csv_figures::put_byte;
use csv_line::put_bytes;
use picture_point::{Point, put_point};

// A path that is longer is broken, so that what draws it need not hold all of it.
const LONGEST: u64 = 1000;

// The path that is open: the letter of its class, 0 where none is, and its points.
#[derive(Clone, Copy)]
pub struct Path {
    pub letter: u8,
    pub points: u64,
}

// A line to a point, on a line of its own.
pub fn put_line(out: &mut [u8], n: usize, p: Point) -> usize
    requires { n + 37 ≤ length out.old }
    ensures { Wrote out.old n (line_text p) out.new result }
{
    let a = put_bytes(out, n, b"\nL");
    put_point(out, a, p)
}

// The end of the path that is open, if one is.
pub fn put_path_end(out: &mut [u8], n: usize, path: Path) -> usize
    requires { n + 4 ≤ length out.old }
    ensures { Wrote out.old n (end_text path) out.new result }
{
    if path.letter == 0 {
        n
    } else {
        put_bytes(out, n, b"'/>\n")
    }
}

// The beginning of a path at a point.
pub fn put_open(out: &mut [u8], n: usize, letter: u8, p: Point) -> usize
    requires { n + 55 ≤ length out.old }
    ensures { Wrote out.old n (open_text letter p) out.new result }
{
    let a = put_bytes(out, n, b"<path class='");
    let b = put_byte(out, a, letter);
    let c = put_bytes(out, b, b"' d='M");
    put_point(out, c, p)
}

// Whether a move of a class goes on with the path that is open.
#[tactic(auto, unfolding(crate::specs::PathText::goes_on))]
pub fn goes_on(path: Path, letter: u8) -> bool
    ensures { result ≡ goes_on path letter }
{
    path.letter == letter && path.points < LONGEST
}

#[tactic(auto, unfolding(crate::specs::PathText::one_more))]
fn one_more(points: u64) -> u64
    ensures { result ≡ one_more points }
{
    if points < LONGEST { points + 1 } else { points }
}

// The path that is open behind a move.
#[tactic(auto, unfolding(crate::specs::PathText::path_after))]
pub fn path_after(path: Path, letter: u8) -> Path
    ensures { result ≡ path_after path letter }
{
    let points = if goes_on(path, letter) {
        one_more(path.points)
    } else {
        2
    };
    Path { letter, points }
}
