// The pen: where it is, what is counted, and what a row draws.
#![tactic(auto)]

ghost use Rattle.std.specs.Prelude.{◌≡◌, ◌+◌, ◌≤◌, length};
ghost use Rattle.layout.specs.Layout.{row_words};
ghost use Rattle.picture_path.specs.PathText.{move_room};
ghost use Rattle.picture_pen.specs.Pen.{first_pen, one_more, counted_of, shows_either};
ghost use Rattle.picture_pen.specs.Pen.{frame_after, moves_in, path_behind, pen_after, point_of};
ghost use Rattle.picture_pen.specs.Drawing.{PlaneOk, Drew};

use motion::G1;
use picture_class::{Class, class_of, letter};
use picture_move::put_move;
use picture_path::{Path, path_after};
use picture_point::Point;
use picture_span::{Counts, Frame, Plane, no_span, widened};
use picture_spot::{both_known, shows, spot_after};

// Counts go up to what a text has room for.
const MOST_COUNT: u64 = 9999999999;

// The motion in force, the pen's place, the path that is open, the box of its places so far, and the rows of each class.
#[derive(Clone, Copy)]
pub struct Pen {
    pub motion: u64,
    pub across: Option<u64>,
    pub up: Option<u64>,
    pub path: Path,
    pub frame: Frame,
    pub counts: Counts,
}

// Before the first row.
pub fn first_pen() -> Pen
    ensures { result ≡ first_pen }
{
    Pen {
        motion: G1,
        across: None,
        up: None,
        path: Path {
            letter: 0,
            points: 0,
        },
        frame: Frame {
            across: no_span(),
            up: no_span(),
        },
        counts: Counts {
            rapid: 0,
            feed: 0,
            sample: 0,
            curved: 0,
        },
    }
}

#[tactic(auto, unfolding(crate::specs::Pen::one_more))]
fn one_more(n: u64) -> u64
    ensures { result ≡ one_more n }
{
    if n < MOST_COUNT { n + 1 } else { n }
}

// A row more of its class.
fn counted(c: Counts, class: Class) -> Counts
    ensures { result ≡ counted_of c class }
{
    match class {
        Class::Rapid => Counts {
            rapid: one_more(c.rapid),
            ..c
        },
        Class::Feed => Counts {
            feed: one_more(c.feed),
            ..c
        },
        Class::Sample => Counts {
            sample: one_more(c.sample),
            ..c
        },
        Class::Curved => Counts {
            curved: one_more(c.curved),
            ..c
        },
    }
}

#[tactic(auto, unfolding(crate::specs::Pen::shows_either))]
fn shows_either(row: &[u64], plane: Plane) -> bool
    requires { (length row.now ≡ row_words) × PlaneOk plane }
    ensures { result ≡ shows_either row.now plane }
{
    shows(row, plane.across) || shows(row, plane.up)
}

// The box with the pen's place, where that is known.
fn frame_after(frame: Frame, across: Option<u64>, up: Option<u64>) -> Frame
    ensures { result ≡ frame_after frame across up }
{
    match (across, up) {
        (Some(a), Some(u)) => Frame {
            across: widened(frame.across, a),
            up: widened(frame.up, u),
        },
        _ => frame,
    }
}

// Whether a row moves the pen in the plane, from a place that is known.
#[tactic(auto, unfolding(crate::specs::Pen::moves_in))]
fn moves(pen: Pen, row: &[u64], plane: Plane) -> bool
    requires { (length row.now ≡ row_words) × PlaneOk plane }
    ensures { result ≡ moves_in pen row.now plane }
{
    both_known(pen.across, pen.up) && shows_either(row, plane)
}

// The path that is open behind a row of a class, which moves or does not.
#[tactic(auto, unfolding(crate::specs::Pen::path_behind))]
fn path_behind(path: Path, letter: u8, moved: bool) -> Path
    ensures { result ≡ path_behind path letter moved }
{
    if moved {
        path_after(path, letter)
    } else {
        path
    }
}

// The pen behind a row.
#[tactic(auto, unfolding(crate::specs::Pen::pen_after))]
fn pen_after(pen: Pen, row: &[u64], plane: Plane) -> Pen
    requires { (length row.now ≡ row_words) × PlaneOk plane }
    ensures { result ≡ pen_after pen row.now plane }
{
    let judged = class_of(row, pen.motion);
    let across = spot_after(pen.across, row, plane.across);
    let up = spot_after(pen.up, row, plane.up);
    let moved = moves(pen, row, plane);
    Pen {
        motion: judged.motion,
        across,
        up,
        path: path_behind(pen.path, letter(judged.class), moved),
        frame: frame_after(pen.frame, across, up),
        counts: counted(pen.counts, judged.class),
    }
}

// An axis that is not known stands at 0: nothing is drawn from it or to it.
fn point_of(pen: Pen) -> Point
    ensures { result ≡ point_of pen }
{
    Point {
        across: pen.across.unwrap_or(0),
        up: pen.up.unwrap_or(0),
    }
}

// The pen behind a row, and the place behind what the row draws.
#[derive(Clone, Copy)]
pub struct Drawn {
    pub pen: Pen,
    pub at: usize,
}

// A row: the pen behind it, and its move, stored from n on, where it is one.
pub fn draw(pen: Pen, row: &[u64], plane: Plane, out: &mut [u8], n: usize) -> Drawn
    requires { (length row.now ≡ row_words) × (PlaneOk plane × (n + move_room ≤ length out.old)) }
    ensures { Drew pen row.now plane out.old n out.new result }
{
    let then = pen_after(pen, row, plane);
    if moves(pen, row, plane) {
        let at = put_move(
            out,
            n,
            pen.path,
            then.path.letter,
            point_of(pen),
            point_of(then),
        );
        return Drawn { pen: then, at };
    }
    Drawn { pen: then, at: n }
}
