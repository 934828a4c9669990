// The text of a move: a line more of the path that is open, or a new path.
#![tactic(auto)]

ghost use Rattle.std.specs.Prelude.{◌+◌, ◌≤◌, length};
ghost use Rattle.csv_figures.specs.Out.{Wrote};
ghost use Rattle.picture_path.specs.PathText.{move_room, move_text};

use picture_path::{Path, goes_on, put_line, put_open, put_path_end};
use picture_point::Point;

// A move of a class from one point to another.
pub fn put_move(out: &mut [u8], n: usize, path: Path, letter: u8, from: Point, to: Point) -> usize
    requires { n + move_room ≤ length out.old }
    ensures { Wrote out.old n (move_text path letter from to) out.new result }
{
    if goes_on(path, letter) {
        return put_line(out, n, to);
    }
    let a = put_path_end(out, n, path);
    let b = put_open(out, a, letter, from);
    put_line(out, b, to)
}
