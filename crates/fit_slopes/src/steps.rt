// The steps between knots, and the slopes over them.
ghost use Rattle.std.specs.Prelude.{◌≡◌, ℕ, ◌<◌, ◌≤◌, ◌+◌, length};
ghost use Rattle.floats.specs.Lists.{filled};
ghost use Rattle.fit_slopes.specs.Slopes.{step, secant};

// The step of the parameter after knot i.
pub fn step_at(ts: &[f64], i: usize) -> f64
    requires { i + 1 < length ts.now }
    ensures { result ≡ step ts.now i }
{
    ts[i + 1] - ts[i]
}

// The slope over it.
pub fn secant_at(ts: &[f64], ys: &[f64], i: usize) -> f64
    requires { (i + 1 < length ts.now) × (i + 1 < length ys.now) }
    ensures { result ≡ secant ts.now ys.now i }
{
    (ys[i + 1] - ys[i]) / step_at(ts, i)
}

// Two knots: the slope over the one step, at both.
pub fn straight_slopes(ts: &[f64], ys: &[f64], out: &mut [f64])
    requires { (2 ≤ length ts.now) × ((2 ≤ length ys.now) × (2 ≤ length out.old)) }
    ensures { out.new ≡ filled (λ (k : ℕ). secant ts.now ys.now 0) 2 out.old }
{
    let m = secant_at(ts, ys, 0);
    out[0] = m;
    out[1] = m;
}
