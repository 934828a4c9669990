// The samples of a fit, stretch by stretch between the programmed points.
#![tactic(auto)]

pub mod count;
pub mod write;

ghost use Rattle.std.specs.Prelude.{◌≡◌, ◌<◌, length};
ghost use Rattle.floats.specs.Numbers.{at};
ghost use Rattle.fit_knots.specs.Fit.{piece_of};
ghost use Rattle.fit_knots.specs.Memory.{fit_times};
ghost use Rattle.curve_segments.specs.Stretches.{in_piece};
ghost use Rattle.curve_segments.specs.Asks.{Pieces};

use curve_walk::{Form, Kept, Shape};

// The curve, looked at first in the piece that the stretch up to point i lies in.
pub fn at_stretch(s: Shape, k: Kept, ks: &[f64], i: usize) -> Shape
    requires { Pieces s k ks.now × (i < length ks.now) }
    ensures { result ≡ in_piece s k (piece_of (fit_times s.n ks.now) k.points (at ks.now i)) }
{
    let n = s.n;
    let points = k.points;
    let end = ks[i];
    let times = n + n;
    let piece = fit_piece::piece(&ks[n..times], points, end);
    let here = Kept { points, piece };
    Shape {
        n,
        ch: s.ch,
        tol: s.tol,
        form: Form::Fit(here),
    }
}
