// Whom a sample belongs to: the first control point after the start whose Greville value is not below it.
#![tactic(auto)]

ghost use Rattle.std.specs.Prelude.{◌≡◌, ◌≤◌, ◌<◌, ◌+◌, ◌-◌, length};
ghost use Rattle.layout.specs.Layout.{most_points};
ghost use Rattle.bspline_tables.specs.Basis.{knot_sum};
ghost use Rattle.bspline_tables.specs.Tables.{greville_at, advanced};

// The sum of the p knots after knot i.
fn sum_knots(ks: &[f64], i: usize, p: usize) -> f64
    requires { i + p < length ks.now }
    ensures { result ≡ knot_sum ks.now i p }
{
    let mut sum = 0.0;
    for knot in &ks[i + 1..i + 1 + p] {
        sum += *knot;
    }
    sum
}

fn greville(ks: &[f64], p: usize, i: usize) -> f64
    requires { (i + p < length ks.now) × (p ≤ most_points) }
    ensures { result ≡ greville_at ks.now p i }
{
    sum_knots(ks, i, p) / p as f64
}

// The owner of a sample at t, where the one before it belongs to `from`.
pub fn advance(ks: &[f64], p: usize, last: usize, from: usize, t: f64) -> usize
    requires { (from ≤ last) × ((last + p ≤ length ks.now) × (p ≤ most_points)) }
    ensures { result ≡ advanced ks.now p t (last - from) from }
{
    for o in from..last {
        if !(greville(ks, p, o) < t) {
            return o;
        }
    }
    last
}
