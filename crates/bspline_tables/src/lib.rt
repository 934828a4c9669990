// The tables of a B-spline: its degree, its knots, its weighted control numbers.
#![tactic(auto)]

ghost use Rattle.std.specs.Prelude.{◌≡◌, ◌≤◌, ◌<◌, ◌+◌, ◌*◌, ◌-◌, min, length};
ghost use Rattle.floats.specs.Numbers.{of_nat};
ghost use Rattle.floats.specs.Lists.{upto, filled};
ghost use Rattle.layout.specs.Layout.{axis_codes, most_points};
ghost use Rattle.bspline_tables.specs.Basis.{degree_of};
ghost use Rattle.bspline_tables.specs.Tables.{control_at, Rows};

use number_copy::copy;

// The degree that n points support.
pub fn degree_of(degree: usize, n: usize) -> usize
    requires { 1 ≤ n }
    ensures { result ≡ degree_of n degree }
{
    degree.min(n - 1).max(1)
}

fn knot(p: usize, spans: usize, i: usize) -> f64
    requires { spans ≤ most_points }
    ensures { result ≡ of_nat (min (i - p) spans) }
{
    i.saturating_sub(p).min(spans) as f64
}

pub fn fill_knots(p: usize, spans: usize, m: usize, ks: &mut [f64])
    requires { (spans ≤ most_points) × (m ≤ length ks.old) }
    ensures { ks.new ≡ filled (λ i. of_nat (min (i - p) spans)) m ks.old }
{
    for i in 0..m {
        ks[i] = knot(p, spans, i);
    }
}

// Channel c of the control numbers.
fn channel(pts: &[f64], ws: &[f64], ch: usize, c: usize, out: &mut [f64])
    requires c_lt_ch { (c < ch) × (ch ≤ axis_codes) }
    requires ch_in_bounds { (length out.old * ch ≤ length pts.now) × ((length out.old ≤ length ws.now) × (length out.old ≤ most_points)) }
    ensures { out.new ≡ upto (control_at pts.now ws.now ch c) (length out.old) }
{
    for (i, number) in out.iter_mut().enumerate() {
        *number = pts[i * ch + c] * ws[i];
    }
}

// The weighted numbers, channel by channel, and then the weights.
pub fn fill_controls(pts: &[f64], ws: &[f64], ch: usize, n: usize, cw: &mut [f64])
    requires ch_le_axis_codes { (ch ≤ axis_codes) × (n ≤ most_points) }
    requires ch_in_bounds { (n * ch ≤ length pts.now) × ((n ≤ length ws.now) × ((ch + 1) * n ≤ length cw.old)) }
    ensures { Rows cw.new n (ch + 1) (λ c. upto (control_at pts.now ws.now ch c) n) }
{
    let mut a = 0;
    for c in 0..ch {
        let e = a + n;
        channel(pts, ws, ch, c, &mut cw[a..e]);
        a = e;
    }
    let e = a + n;
    copy(&ws[..n], &mut cw[a..e]);
}
