// The fixed text of a picture: its start, and its last words. Each function stores its text from n on.
#![tactic(auto)]

ghost use Rattle.std.specs.Prelude.{◌+◌, ◌≤◌, length};
ghost use Rattle.picture_piece.specs.Grew.{Grew};
ghost use Rattle.picture_fixed.specs.Rooms.{start_room, close_room};

use picture_piece::put_text;

// Everything before the first path.
pub fn put_start(out: &mut [u8], n: usize) -> usize
    requires { n + start_room ≤ length out.old }
    ensures { Grew out.old n start_room out.new result }
{
    put_text(
        out,
        n,
        b"<svg xmlns='http://www.w3.org/2000/svg' viewBox='0 0 1000 1000'>\n<style>\ntext { font: 16px sans-serif }\n\
        path { fill: none; stroke-linejoin: round; vector-effect: non-scaling-stroke }\n\
        .r { stroke: #999999; stroke-width: 1.5 }\n\
        .f { stroke: #0072b2; stroke-width: 1.5 }\n\
        .s { stroke: #e69f00; stroke-width: 2 }\n\
        .c { stroke: #c0007a; stroke-width: 2.5; stroke-dasharray: 8 4 }\n\
        </style>\n<rect width='1000' height='1000' fill='#fff'/>\n<g id='p'>\n",
    )
}

// The end, with a word that the picture is not whole, where it is not.
pub fn put_close(out: &mut [u8], n: usize, whole: bool) -> usize
    requires { n + close_room ≤ length out.old }
    ensures { Grew out.old n close_room out.new result }
{
    if whole {
        return put_text(out, n, b"</svg>\n");
    }
    put_text(
        out,
        n,
        b"<text x='30' y='970' fill='#c00'>NOT WHOLE: the input could not be read to its end</text>\n</svg>\n",
    )
}
