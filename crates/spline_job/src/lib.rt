// What an emission is asked, the numbers of its curve, and the curve to draw.
#![tactic(auto)]

ghost use Rattle.std.specs.Prelude.{◌≡◌};
ghost use Rattle.spline_job.specs.Jobs.{drawing_of};

use curve_drawing::Drawing;
use motion::kind_of;

// What an emission is asked: the held spline's word, degree and tolerance, the axes of its start, its blocks, and the rows
// that are to have room behind it.
#[derive(Clone, Copy)]
pub struct Job {
    pub motion: u64,
    pub degree: u64,
    pub tol: f64,
    pub start: u64,
    pub held: usize,
    pub own: usize,
}

// The channels, the metric's places and the points of a gathered curve, by their number.
#[derive(Clone, Copy)]
pub struct Curve {
    pub ch: usize,
    pub metric: usize,
    pub n: usize,
}

// The curve to draw.
pub fn drawing_of(job: Job, curve: Curve) -> Drawing
    ensures { result ≡ drawing_of job curve }
{
    Drawing {
        kind: kind_of(job.motion),
        degree: job.degree as usize,
        n: curve.n,
        ch: curve.ch,
        tol: job.tol,
    }
}
