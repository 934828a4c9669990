// Whether a point is near a chord, over the metric's channels `ms`.
#![tactic(auto)]

ghost use Rattle.std.specs.Prelude.{◌≡◌, ◌≤◌, length};
ghost use Rattle.curve_metric.specs.Below.{Below};
ghost use Rattle.curve_metric.specs.Metric.{along, deviation2_of};
ghost use Rattle.curve_metric.specs.Walk.{near};

use curve_gaps::{deviation_three, deviation_two, foot_of, gap_at, missed, toward};
use root_bound::root_at_most;

// Where on the chord from a to b the point nearest to p lies.
fn foot(p: &[f64], a: &[f64], b: &[f64], ms: &[usize]) -> f64
    requires below { Below ms.now (length a.now) }
    requires a_in_bounds { (length a.now ≤ length b.now) × (length a.now ≤ length p.now) }
    ensures { result ≡ along p.now a.now b.now ms.now }
{
    let mut dot = 0.0;
    let mut len2 = 0.0;
    for i in ms {
        let g = gap_at(p, a, b, *i);
        dot = dot + toward(g);
        len2 = len2 + g.d * g.d;
    }
    foot_of(dot, len2)
}

// The squared distance of p from the chord from a to b, over any number of channels.
fn deviation_any(p: &[f64], a: &[f64], b: &[f64], ms: &[usize]) -> f64
    requires below { Below ms.now (length a.now) }
    requires a_in_bounds { (length a.now ≤ length b.now) × (length a.now ≤ length p.now) }
    ensures { result ≡ deviation2_of p.now a.now b.now ms.now }
{
    let t = foot(p, a, b, ms);
    let mut sum = 0.0;
    for i in ms {
        sum = sum + missed(gap_at(p, a, b, *i), t);
    }
    sum
}

// The squared distance of p from the chord from a to b. The metric has mostly two or three channels: written out, each
// number is read once.
fn deviation2(p: &[f64], a: &[f64], b: &[f64], ms: &[usize]) -> f64
    requires below { Below ms.now (length a.now) }
    requires a_in_bounds { (length a.now ≤ length b.now) × (length a.now ≤ length p.now) }
    ensures { result ≡ deviation2_of p.now a.now b.now ms.now }
{
    if ms.len() == 3 {
        return deviation_three(
            gap_at(p, a, b, ms[0]),
            gap_at(p, a, b, ms[1]),
            gap_at(p, a, b, ms[2]),
        );
    }
    if ms.len() == 2 {
        return deviation_two(gap_at(p, a, b, ms[0]), gap_at(p, a, b, ms[1]));
    }
    deviation_any(p, a, b, ms)
}

// Whether the `deviation` of p from the chord from a to b is within the tolerance: its root is not taken.
pub fn is_near(ms: &[usize], tol: f64, a: &[f64], b: &[f64], p: &[f64]) -> bool
    requires below { Below ms.now (length a.now) }
    requires a_in_bounds { (length a.now ≤ length b.now) × (length a.now ≤ length p.now) }
    ensures { result ≡ near ms.now tol a.now b.now p.now }
{
    root_at_most(deviation2(p, a, b, ms), tol)
}
