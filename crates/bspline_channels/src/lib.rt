// The channels of a B-spline of degree 1 to 4 at a parameter, each by the top of the weights.
#![tactic(auto)]

ghost use Rattle.std.specs.Prelude.{◌≡◌, ◌≤◌, ◌<◌, ◌+◌, ◌*◌, length, replicate};
ghost use Rattle.floats.specs.Numbers.{◌⊘◌, f0};
ghost use Rattle.floats.specs.Lists.{filled};
ghost use Rattle.layout.specs.Layout.{axis_codes, most_points};
ghost use Rattle.curve_metric.specs.Widest.{widest};
ghost use Rattle.bspline_low.specs.Low.{top_of, top4};

use bspline_low::four::{Fourth, top_four};
use bspline_low::low::{Shares, top, top_three};
use curve_metric::WIDEST;
use point_channels::each_channel;

// The tops of the first ch channels, of n numbers each, by that of channel ch; the rows start at number `from`.
pub fn project_tops(
    s: Shares,
    p: usize,
    cw: &[f64],
    n: usize,
    from: usize,
    ch: usize,
) -> [f64; WIDEST]
    requires le_p { (1 ≤ p) × ((p ≤ 2) × ((from + p < n) × (n ≤ most_points))) }
    requires ch_le_axis_codes { (ch ≤ axis_codes) × ((ch + 1) * n ≤ length cw.now) }
    ensures { result ≡ filled (λ c. top_of s p cw.now (c * n + from) ⊘ top_of s p cw.now (ch * n + from)) ch (replicate widest f0) }
{
    let by = top(s, p, cw, ch * n + from);
    each_channel(ch, |c| top(s, p, cw, c * n + from) / by)
}

// The same at degree 3, the usual one.
pub fn project_three(s: Shares, cw: &[f64], n: usize, from: usize, ch: usize) -> [f64; WIDEST]
    requires from_bound { (from + 3 < n) × ((ch + 1) * n ≤ length cw.now) }
    requires ch_le_axis_codes { ch ≤ axis_codes }
    ensures { result ≡ filled (λ c. top_of s 3 cw.now (c * n + from) ⊘ top_of s 3 cw.now (ch * n + from)) ch (replicate widest f0) }
{
    let by = top_three(s, cw, ch * n + from);
    each_channel(ch, |c| top_three(s, cw, c * n + from) / by)
}

// The same at degree 4.
pub fn project_four(s: Fourth, cw: &[f64], n: usize, from: usize, ch: usize) -> [f64; WIDEST]
    requires from_bound { (from + 4 < n) × ((ch + 1) * n ≤ length cw.now) }
    requires ch_le_axis_codes { ch ≤ axis_codes }
    ensures { result ≡ filled (λ c. top4 s cw.now (c * n + from) ⊘ top4 s cw.now (ch * n + from)) ch (replicate widest f0) }
{
    let by = top_four(s, cw, ch * n + from);
    each_channel(ch, |c| top_four(s, cw, c * n + from) / by)
}
