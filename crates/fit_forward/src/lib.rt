// The forward pass of the natural cubic's equations.
#![tactic(auto)]

ghost use Rattle.std.specs.Prelude.{◌≡◌, ◌≤◌, ◌<◌, length};
ghost use Rattle.floats.specs.Lists.{filled};
ghost use Rattle.fit_slopes.specs.Slopes.{diag, rhs};

use fit_slopes::steps::{secant_at, step_at};

// The m eliminated rows of m + 1 knots.
pub fn forward(ts: &[f64], ys: &[f64], m: usize, d: &mut [f64], r: &mut [f64])
    requires m_nonzero { (0 < m) × ((m < length ts.now) × (m < length ys.now)) }
    requires m_in_bounds { (m ≤ length d.old) × (m ≤ length r.old) }
    ensures d_after { d.new ≡ filled (diag ts.now) m d.old }
    ensures r_after { r.new ≡ filled (rhs ts.now ys.now) m r.old }
{
    let mut dp = 1.0;
    let mut rp = 0.0;
    let mut up = 0.0;
    d[0] = dp;
    r[0] = rp;
    for i in 0..m - 1 {
        let h0 = step_at(ts, i);
        let h1 = step_at(ts, i + 1);
        let w = h0 / dp;
        dp = 2.0 * (h0 + h1) - w * up;
        rp = 6.0 * (secant_at(ts, ys, i + 1) - secant_at(ts, ys, i)) - w * rp;
        up = h1;
        d[i + 1] = dp;
        r[i + 1] = rp;
    }
}
