// The samples of a spline of any kind, counted by block and written.
#![tactic(auto)]

pub mod runs;

ghost use Rattle.std.specs.Prelude.{◌≡◌};
ghost use Rattle.curve_drawing.specs.Runs.{shape_of};

use curve_drawing::Drawing;
use curve_walk::{Form, Shape};

// The curve beside its tables, once it is known what they hold.
pub fn shape_of(d: Drawing, form: Form) -> Shape
    ensures { result ≡ shape_of d form }
{
    Shape {
        n: d.n,
        ch: d.ch,
        tol: d.tol,
        form,
    }
}
