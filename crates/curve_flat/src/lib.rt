// The curve's point at a parameter, and whether a chord will do for a stretch of it.
#![tactic(auto)]

ghost use Rattle.std.specs.Prelude.{◌≡◌, length, replicate};
ghost use Rattle.floats.specs.Numbers.{f0};
ghost use Rattle.floats.specs.Lists.{filled};
ghost use Rattle.curve_metric.specs.Walk.{near, flat};
ghost use Rattle.curve_metric.specs.Widest.{widest};
ghost use Rattle.curve_walk.specs.Walks.{form_at, point_at, eval_of};
ghost use Rattle.curve_walk.specs.Asks.{Formed, Tables, Stretch};

use curve_metric::WIDEST;
use curve_near::is_near;
use curve_walk::{Form, Interval, Kept, Shape};

// A fit's point at t.
fn fit_at(s: Shape, k: Kept, ks: &[f64], cs: &[f64], t: f64) -> [f64; WIDEST]
    requires { Tables s ks.now cs.now × Formed (Form.Fit k) s.n s.ch ks.now cs.now }
    ensures { result ≡ filled (form_at (Form.Fit k) s.n s.ch ks.now cs.now t) s.ch (replicate widest f0) }
{
    let n = s.n;
    let ch = s.ch;
    let times = n + n;
    let points = n * ch;
    let slopes = points + points;
    fit_point::eval_fit(
        &ks[n..times],
        &cs[..points],
        &cs[points..slopes],
        k.points,
        ch,
        t,
        k.piece,
    )
}

// The curve's point at t.
pub fn point_at(s: Shape, ks: &[f64], cs: &[f64], t: f64) -> [f64; WIDEST]
    requires { Tables s ks.now cs.now }
    ensures { result ≡ filled (point_at s ks.now cs.now t) s.ch (replicate widest f0) }
{
    let form = s.form;
    match form {
        Form::Basis(degree) => bspline_point::eval(ks, cs, s.n, degree, s.ch, t),
        Form::Fit(k) => fit_at(s, k, ks, cs, t),
    }
}

// Whether the curve's point at t is near the chord.
fn near_at(s: Shape, ms: &[usize], p0: &[f64], p1: &[f64], ks: &[f64], cs: &[f64], t: f64) -> bool
    requires { Stretch s ms.now ks.now cs.now p0.now p1.now }
    ensures { result ≡ near ms.now s.tol p0.now p1.now
        (eval_of s ks.now cs.now t) }
{
    let ch = s.ch;
    let p = point_at(s, ks, cs, t);
    is_near(ms, s.tol, p0, p1, &p[..ch])
}

// Whether the chord will do; pm is the curve's point at the middle.
pub fn is_flat(
    s: Shape,
    ms: &[usize],
    h: Interval,
    p0: &[f64],
    p1: &[f64],
    pm: &[f64],
    ks: &[f64],
    cs: &[f64],
) -> bool
    requires stretch { Stretch s ms.now ks.now cs.now p0.now p1.now }
    requires pm_len { length pm.now ≡ s.ch }
    ensures { result ≡ flat (eval_of s ks.now cs.now) ms.now s.tol
        h.t0 p0.now h.t1 p1.now pm.now }
{
    let t0 = h.t0;
    let t1 = h.t1;
    is_near(ms, s.tol, p0, p1, pm)
        && near_at(s, ms, p0, p1, ks, cs, t0 + 0.25 * (t1 - t0))
        && near_at(s, ms, p0, p1, ks, cs, t0 + 0.75 * (t1 - t0))
}
