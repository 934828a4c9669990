// The motion and the mark of a row that a held block becomes.
#![tactic(auto)]

ghost use Rattle.std.specs.Prelude.{◌≡◌, ◌<◌};
ghost use Rattle.layout.specs.Layout.{most_held};
ghost use Rattle.spline_marks.specs.Marks.{raw_mark, raw_motion};

use motion::G1;
use spline_places::frame::Frame;

// The first row's motion: G1 on the first point block, none on later ones.
#[tactic(auto, unfolding(crate::specs::Marks::raw_motion))]
pub fn motion_of(j: usize) -> u64
    ensures { result ≡ raw_motion j }
{
    if j == 0 { G1 } else { 0 }
}

// Whether row t of c of point block j is a generated one.
#[tactic(auto, unfolding(crate::specs::Marks::raw_mark))]
pub fn is_marked(o: Frame, j: usize, c: usize, t: usize) -> bool
    requires { (t < c) × (j < most_held) }
    ensures { result ≡ raw_mark o j c t }
{
    t + 1 != c || (o.basis && j + 1 != o.points)
}
