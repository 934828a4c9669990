// The slopes of the natural cubic spline: flatten.rs's `natural_cubic_slopes`.
#![tactic(auto)]

ghost use Rattle.std.specs.Prelude.{◌≡◌, ◌≤◌, ◌<◌, ◌+◌, length};
ghost use Rattle.floats.specs.Lists.{filled, Agrees};
ghost use Rattle.layout.specs.Layout.{most_points};
ghost use Rattle.fit_slopes.specs.Slopes.{diag, rhs, bend, bent, cubic_slope};

use fit_forward::forward;
use fit_slopes::sizes::SMALL_POINTS;
use fit_slopes::steps::{secant_at, step_at, straight_slopes};
use layout::MOST_POINTS;

// The second derivatives at the m + 1 knots, from the last to the first, each over the right side that it spends.
fn backward(ts: &[f64], ys: &[f64], m: usize, d: &[f64], r: &mut [f64])
    requires m_nonzero { (0 < m) × ((m < length ts.now) × ((m ≤ length d.now) × (m < length r.old))) }
    requires agrees { Agrees d.now (diag ts.now) m }
    requires agrees_2 { Agrees r.old (rhs ts.now ys.now) m }
    ensures { r.new ≡ filled (bend ts.now ys.now m) (m + 1) r.old }
{
    let mut b = 0.0;
    r[m] = b;
    for j in (1..m).rev() {
        b = (r[j] - step_at(ts, j) * b) / d[j];
        r[j] = b;
    }
    r[0] = 0.0;
}

// The slopes at the m + 1 knots.
fn slopes(ts: &[f64], ys: &[f64], m: usize, s: &[f64], out: &mut [f64])
    requires m_nonzero { (0 < m) × ((m < length ts.now) × ((m < length ys.now) × ((m < length s.now) × (m < length out.old)))) }
    requires agrees { Agrees s.now (bend ts.now ys.now m) (m + 1) }
    ensures { out.new ≡ filled (bent ts.now ys.now m) (m + 1) out.old }
{
    for i in 0..m {
        out[i] = secant_at(ts, ys, i) - step_at(ts, i) * (2.0 * s[i] + s[i + 1]) / 6.0;
    }
    let j = m - 1;
    out[m] = secant_at(ts, ys, j) + step_at(ts, j) * (s[j] + 2.0 * s[m]) / 6.0;
}

// The slopes at the m + 1 knots, in two lists: out has the diagonal until the slopes go over it, r the right sides and
// then the second derivatives. N is room for them: the fewer, the less to clear.
fn bent_in<const N: usize>(ts: &[f64], ys: &[f64], m: usize, out: &mut [f64])
    requires m_nonzero { (0 < m) × ((m < N) × (N ≤ most_points)) }
    requires m_in_bounds { (m < length ts.now) × ((m < length ys.now) × (m < length out.old)) }
    ensures { out.new ≡ filled (bent ts.now ys.now m) (m + 1) out.old }
{
    let mut r = [0.0f64; N];
    forward(ts, ys, m, out, &mut r);
    backward(ts, ys, m, out, &mut r);
    slopes(ts, ys, m, &r, out);
}

// The slopes at n knots, two or more.
pub fn natural_cubic_slopes(ts: &[f64], ys: &[f64], n: usize, out: &mut [f64])
    requires le_n { (2 ≤ n) × (n ≤ most_points) }
    requires n_in_bounds { (n ≤ length ts.now) × ((n ≤ length ys.now) × (n ≤ length out.old)) }
    ensures { out.new ≡ filled (cubic_slope ts.now ys.now n) n out.old }
{
    if n == 2 {
        straight_slopes(ts, ys, out);
    } else if n <= SMALL_POINTS {
        bent_in::<SMALL_POINTS>(ts, ys, n - 1, out);
    } else {
        bent_in::<MOST_POINTS>(ts, ys, n - 1, out);
    }
}
