// The chord sums of points, over the metric's channels `ms`.
#![tactic(auto)]

ghost use Rattle.std.specs.Prelude.{◌≡◌, ◌≤◌, ◌<◌, ◌*◌, length};
ghost use Rattle.floats.specs.Lists.{filled, rows_of};
ghost use Rattle.curve_metric.specs.Below.{Below};
ghost use Rattle.curve_metric.specs.Metric.{len_to, chord_to};

// The squared distance of a and b.
fn gap2(a: &[f64], b: &[f64], ms: &[usize]) -> f64
    requires below { Below ms.now (length a.now) }
    requires a_in_bounds { length a.now ≤ length b.now }
    ensures { result ≡ len_to a.now b.now ms.now (length ms.now) }
{
    let mut sum = 0.0;
    for i in ms {
        let d = b[*i] - a[*i];
        sum = sum + d * d;
    }
    sum
}

// The chord lengths summed along the first n points, of ch numbers each.
pub fn chord_parameters(pts: &[f64], ch: usize, ms: &[usize], n: usize, out: &mut [f64])
    requires below { Below ms.now ch }
    requires n_nonzero { (0 < n) × ((n * ch ≤ length pts.now) × (n ≤ length out.old)) }
    ensures { out.new ≡ filled (chord_to (rows_of pts.now ch n) ms.now) n out.old }
{
    let mut t = 0.0;
    let mut at = 0;
    out[0] = t;
    for k in 1..n {
        let mid = at + ch;
        let end = mid + ch;
        t = t + root::root(gap2(&pts[at..mid], &pts[mid..end], ms));
        out[k] = t;
        at = mid;
    }
}
