// The slopes of the Akima spline: flatten.rs's `akima_slopes`.
ghost use Rattle.std.specs.Prelude.{◌≡◌, ◌≤◌, ◌<◌, ◌+◌, ◌-◌, length};
ghost use Rattle.floats.specs.Numbers.{at};
ghost use Rattle.floats.specs.Lists.{filled};
ghost use Rattle.fit_slopes.specs.Slopes.{widened, akima_at, akima_slope};
ghost use Rattle.fit_slopes.specs.Akima.{akima_of, before, behind};

use crate::steps::{secant_at, straight_slopes};
use floats::TINY;

// The slope between the second and the third of four steps' slopes.
fn akima_of(m1: f64, m2: f64, m3: f64, m4: f64) -> f64
    ensures { result ≡ akima_of m1 m2 m3 m4 }
{
    let w1 = floats::abs(m4 - m3);
    let w2 = floats::abs(m2 - m1);
    if w1 + w2 > TINY {
        (w1 * m2 + w2 * m3) / (w1 + w2)
    } else {
        0.5 * (m2 + m3)
    }
}

// The slope before the first step.
fn slope_before(ts: &[f64], ys: &[f64]) -> f64
    requires { (3 ≤ length ts.now) × (3 ≤ length ys.now) }
    ensures { result ≡ before ts.now ys.now }
{
    2.0 * secant_at(ts, ys, 0) - secant_at(ts, ys, 1)
}

// The slope behind the last step of n knots.
fn slope_behind(ts: &[f64], ys: &[f64], n: usize) -> f64
    requires { (3 ≤ n) × ((n ≤ length ts.now) × (n ≤ length ys.now)) }
    ensures { result ≡ behind ts.now ys.now n }
{
    2.0 * secant_at(ts, ys, n - 2) - secant_at(ts, ys, n - 3)
}

// The slopes of the steps, with two more before and two behind.
fn widened_at(ts: &[f64], ys: &[f64], n: usize, i: usize) -> f64
    requires le_n { (3 ≤ n) × ((n ≤ length ts.now) × (n ≤ length ys.now)) }
    requires i_bound { i < n + 3 }
    ensures { result ≡ at (widened ts.now ys.now n) i }
{
    if i == 0 {
        return 2.0 * slope_before(ts, ys) - secant_at(ts, ys, 0);
    }
    if i == 1 {
        return slope_before(ts, ys);
    }
    if i <= n {
        return secant_at(ts, ys, i - 2);
    }
    if i - 1 == n {
        return slope_behind(ts, ys, n);
    }
    2.0 * slope_behind(ts, ys, n) - secant_at(ts, ys, n - 2)
}

// The slopes at n knots, three or more.
fn many_slopes(ts: &[f64], ys: &[f64], n: usize, out: &mut [f64])
    requires { (3 ≤ n) × ((n ≤ length ts.now) × ((n ≤ length ys.now) × (n ≤ length out.old))) }
    ensures { out.new ≡ filled (akima_at (widened ts.now ys.now n)) n out.old }
{
    let mut m1 = widened_at(ts, ys, n, 0);
    let mut m2 = widened_at(ts, ys, n, 1);
    let mut m3 = widened_at(ts, ys, n, 2);
    for i in 0..n {
        let m4 = widened_at(ts, ys, n, i + 3);
        out[i] = akima_of(m1, m2, m3, m4);
        m1 = m2;
        m2 = m3;
        m3 = m4;
    }
}

// The slopes at n knots, two or more.
pub fn akima_slopes(ts: &[f64], ys: &[f64], n: usize, out: &mut [f64])
    requires { (2 ≤ n) × ((n ≤ length ts.now) × ((n ≤ length ys.now) × (n ≤ length out.old))) }
    ensures { out.new ≡ filled (akima_slope ts.now ys.now n) n out.old }
{
    if n == 2 {
        straight_slopes(ts, ys, out);
    } else {
        many_slopes(ts, ys, n, out);
    }
}
