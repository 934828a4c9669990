// The points kept for the fit.
ghost use Rattle.std.specs.Prelude.{◌≤◌, ◌<◌, ◌+◌, ◌-◌, length, get_or};
ghost use Rattle.fit_knots.specs.Kept.{Kept, Judged};

use floats::TINY;

// Point i is kept where the chord sum has grown since the last one kept.
fn judge(ts: &[f64], i: usize, m: usize, out: &mut [usize]) -> usize
    requires m_nonzero { (0 < m) × ((m ≤ i) × ((i < length ts.now) × (i < length out.old))) }
    requires m_bound { get_or out.old (m - 1) 0 < i }
    ensures { Judged ts.now i m out.old out.new result }
{
    let last = out[m - 1];
    if ts[i] - ts[last] > TINY {
        out[m] = i;
        return m + 1;
    }
    m
}

// The kept ones of the first n points stand at the front of out.
pub fn keep(ts: &[f64], n: usize, out: &mut [usize]) -> usize
    requires { (1 ≤ n) × ((n ≤ length ts.now) × (n ≤ length out.old)) }
    ensures { Kept ts.now (n - 1) out.old out.new result }
{
    out[0] = 0;
    let mut m = 1;
    for i in 1..n {
        m = judge(ts, i, m, out);
    }
    m
}
