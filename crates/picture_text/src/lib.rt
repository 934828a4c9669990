// What is known of a picture only at its end: the counts and the box, as a legend, and the transform that fits the path into
// the area, in a style of its own. Each function stores its text from n on.
#![tactic(auto)]

ghost use Rattle.std.specs.Prelude.{◌+◌, ◌≤◌, ◌<◌, length};
ghost use Rattle.picture_fit.specs.Fit.{most_scale, Small};
ghost use Rattle.picture_piece.specs.Grew.{Grew};
ghost use Rattle.picture_text.specs.Rooms.{range_room, frame_room, scales_room, corner_room, fit_room};
ghost use Rattle.picture_text.specs.Rooms.{legend_room, known_room, end_room};

use picture_fit::{Fit, Scale, fit_of};
use picture_fixed::put_close;
use picture_piece::{put_text, then_axis, then_count, then_length, then_scale};
use picture_place::across;
use picture_span::{Counts, Frame, Plane, Span, is_empty};

// ---- the legend
// The paths' end and the counts; the last entry is ended by what stands behind it.
fn put_legend(out: &mut [u8], n: usize, counts: Counts) -> usize
    requires { n + legend_room ≤ length out.old }
    ensures { Grew out.old n legend_room out.new result }
{
    let a = then_count(
        out,
        n,
        b"</g>\n<path class='r' d='M30 885h40'/><text x='80' y='890'>rapid ",
        counts.rapid,
    );
    let b = then_count(
        out,
        a,
        b"</text>\n<path class='f' d='M270 885h40'/><text x='320' y='890'>feed ",
        counts.feed,
    );
    let c = then_count(
        out,
        b,
        b"</text>\n<path class='s' d='M510 885h40'/><text x='560' y='890'>sample ",
        counts.sample,
    );
    then_count(
        out,
        c,
        b"</text>\n<path class='c' d='M750 885h40'/><text x='800' y='890'>still curved ",
        counts.curved,
    )
}

// ---- the box
// From where to where a span goes, behind its direction.
fn put_range(out: &mut [u8], n: usize, s: &[u8], span: Span) -> usize
    requires { n + (length s.now + range_room) ≤ length out.old }
    ensures { Grew out.old n (length s.now + range_room) out.new result }
{
    let a = then_length(out, n, s, span.from);
    then_length(out, a, b" to ", span.to)
}

// The box, each span behind its axis; the second is ended by what stands behind it.
fn put_frame(out: &mut [u8], n: usize, plane: Plane, across: Span, up: Span) -> usize
    requires { n + frame_room ≤ length out.old }
    ensures { Grew out.old n frame_room out.new result }
{
    let a = then_axis(out, n, b"</text>\n<text x='30' y='930'>", plane.across);
    let b = put_range(out, a, b" to the right: ", across);
    let c = then_axis(out, b, b" mm</text>\n<text x='510' y='930'>", plane.up);
    put_range(out, c, b" up: ", up)
}

// ---- the transform
// The box's lower left corner goes to the origin, is scaled with up being up, and goes to its place in the picture.
fn put_corner(out: &mut [u8], n: usize, left: u64, low: u64) -> usize
    requires { n + corner_room ≤ length out.old }
    ensures { Grew out.old n corner_room out.new result }
{
    let a = then_length(out, n, b", 0, 0) matrix(1, 0, 0, 1, ", across(left));
    let b = then_length(out, a, b", ", across(low));
    put_text(out, b, b") }\n</style>\n")
}

fn put_scales(out: &mut [u8], n: usize, scale: Scale) -> usize
    requires { (n + scales_room ≤ length out.old) × (scale.millionths < most_scale) }
    ensures { Grew out.old n scales_room out.new result }
{
    let a = then_scale(out, n, b") matrix(", scale);
    then_scale(out, a, b", 0, 0, -", scale)
}

fn put_fit(out: &mut [u8], n: usize, f: Fit, left: u64, low: u64) -> usize
    requires { (n + fit_room ≤ length out.old) × Small f }
    ensures { Grew out.old n fit_room out.new result }
{
    let scale = f.scale;
    let a = then_count(
        out,
        n,
        b" mm</text>\n<style>\n#p { transform: matrix(1, 0, 0, 1, ",
        f.left,
    );
    let b = then_count(out, a, b", ", f.base);
    let c = put_scales(out, b, scale);
    put_corner(out, c, left, low)
}

// ---- the end
// The box and its fit.
fn put_box(out: &mut [u8], n: usize, plane: Plane, across: Span, up: Span) -> usize
    requires { n + known_room ≤ length out.old }
    ensures { Grew out.old n known_room out.new result }
{
    let a = put_frame(out, n, plane, across, up);
    put_fit(out, a, fit_of(across, up), across.from, up.from)
}

// The same, where a point is known.
fn put_known(out: &mut [u8], n: usize, plane: Plane, frame: Frame) -> usize
    requires { n + known_room ≤ length out.old }
    ensures { Grew out.old n known_room out.new result }
{
    let across = frame.across;
    if is_empty(across) {
        return put_text(
            out,
            n,
            b"</text>\n<text x='30' y='930'>no point is known</text>\n",
        );
    }
    let up = frame.up;
    put_box(out, n, plane, across, up)
}

// Everything behind the last path.
pub fn put_end(
    out: &mut [u8],
    n: usize,
    whole: bool,
    counts: Counts,
    plane: Plane,
    frame: Frame,
) -> usize
    requires { n + end_room ≤ length out.old }
    ensures { Grew out.old n end_room out.new result }
{
    let a = put_legend(out, n, counts);
    let b = put_known(out, a, plane, frame);
    put_close(out, b, whole)
}
