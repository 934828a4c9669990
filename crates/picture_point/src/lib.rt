// The text of a point: its two coordinates.
#![tactic(auto)]

ghost use Rattle.std.specs.Prelude.{◌+◌, ◌≤◌, length};
ghost use Rattle.csv_figures.specs.Out.{Wrote};
ghost use Rattle.picture_point.specs.PointText.{point_text};

use csv_figures::put_byte;
use picture_place::put_place;

// The places of a point on the picture's two axes.
#[derive(Clone, Copy)]
pub struct Point {
    pub across: u64,
    pub up: u64,
}

pub fn put_point(out: &mut [u8], n: usize, p: Point) -> usize
    requires { n + 35 ≤ length out.old }
    ensures { Wrote out.old n (point_text p) out.new result }
{
    let a = put_place(out, n, p.across);
    let b = put_byte(out, a, b' ');
    put_place(out, b, p.up)
}
