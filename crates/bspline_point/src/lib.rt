// The point of a B-spline at a parameter.
#![tactic(auto)]

ghost use Rattle.std.specs.Prelude.{◌≡◌, ◌≤◌, ◌<◌, ◌+◌, ◌*◌, length, replicate};
ghost use Rattle.floats.specs.Numbers.{f0};
ghost use Rattle.floats.specs.Lists.{filled};
ghost use Rattle.layout.specs.Layout.{most_points};
ghost use Rattle.curve_metric.specs.Widest.{widest};
ghost use Rattle.bspline_tables.specs.Tables.{curve_at, Curve};
ghost use Rattle.bspline_raise.specs.Climb.{most_wide, Width};

use bspline_boor::{
    LEAST_WIDE, MOST_WIDE, USUAL_WIDE, climb_up, load_rows, project_first, row_width,
};
use bspline_channels::{project_four, project_three, project_tops};
use bspline_low::four::fourth_in;
use bspline_low::low::shares_in;
use bspline_span::span_of;
use curve_metric::WIDEST;
use layout::MOST_POINTS;

// The point at t, in work memory of p + 1 rows.
fn eval_in(
    ks: &[f64],
    cw: &[f64],
    n: usize,
    p: usize,
    ch: usize,
    t: f64,
    wide: usize,
    d: &mut [f64],
) -> [f64; WIDEST]
    requires curve { Curve ks.now cw.now n p ch }
    requires width { Width wide × (ch < wide) }
    requires wide_in_bounds { (p + 1) * wide ≤ length d.old }
    ensures { result ≡ filled (curve_at ks.now cw.now n p ch t) ch (replicate widest f0) }
{
    let hi = ks[n];
    let u = floats::held_in(0.0, hi, t);
    let k = span_of(u, hi, p, n);
    load_rows(cw, n, k, p, ch, wide, d);
    climb_up(ks, u, p, k, wide, d);
    project_first(d, ch)
}

fn eval_low(ks: &[f64], cw: &[f64], n: usize, p: usize, ch: usize, t: f64) -> [f64; WIDEST]
    requires curve { Curve ks.now cw.now n p ch }
    requires p_bound { p ≤ 4 }
    ensures { result ≡ filled (curve_at ks.now cw.now n p ch t) ch (replicate widest f0) }
{
    let hi = ks[n];
    let u = floats::held_in(0.0, hi, t);
    let k = span_of(u, hi, p, n);
    if p == 4 {
        return project_four(fourth_in(ks, u, k), cw, n, k - 4, ch);
    }
    let s = shares_in(ks, u, p, k);
    if p == 3 {
        return project_three(s, cw, n, k - 3, ch);
    }
    project_tops(s, p, cw, n, k - p, ch)
}

// Work memory of five sizes: small where the rows are few, since it is cleared at each call; the third has room for the
// highest degree where rows are of four numbers, the fourth where they are usual ones, the last for any.
const FEW: usize = 64;

const SOME: usize = 256;

const MANY: usize = MOST_POINTS * LEAST_WIDE;

const USUAL: usize = MOST_POINTS * USUAL_WIDE;

const MOST: usize = MOST_POINTS * MOST_WIDE;

// The point at t, in work memory for CELLS numbers.
fn eval_within<const CELLS: usize>(
    ks: &[f64],
    cw: &[f64],
    n: usize,
    p: usize,
    ch: usize,
    t: f64,
    wide: usize,
) -> [f64; WIDEST]
    requires curve { Curve ks.now cw.now n p ch }
    requires width { Width wide × (ch < wide) }
    requires room { ((p + 1) * wide ≤ CELLS) × (CELLS ≤ most_points * most_wide) }
    ensures { result ≡ filled (curve_at ks.now cw.now n p ch t) ch (replicate widest f0) }
{
    let mut d = [0.0f64; CELLS];
    eval_in(ks, cw, n, p, ch, t, wide, &mut d)
}

// The point at t in large work memory, for so many cells. It calls itself so that each memory has a frame of its own (crate
// spline_emit); the two small ones are in their caller's, which is quicker.
fn eval_for(
    cells: usize,
    ks: &[f64],
    cw: &[f64],
    n: usize,
    p: usize,
    ch: usize,
    t: f64,
    wide: usize,
) -> [f64; WIDEST]
    requires curve { Curve ks.now cw.now n p ch }
    requires width { Width wide × (ch < wide) }
    requires wide_bound { (p + 1) * wide ≤ cells }
    ensures { result ≡ filled (curve_at ks.now cw.now n p ch t) ch (replicate widest f0) }
{
    if cells <= MANY {
        return eval_within::<MANY>(ks, cw, n, p, ch, t, wide);
    }
    if cells <= USUAL {
        return eval_within::<USUAL>(ks, cw, n, p, ch, t, wide);
    }
    if cells <= MOST {
        return eval_within::<MOST>(ks, cw, n, p, ch, t, wide);
    }
    eval_for(cells - 1, ks, cw, n, p, ch, t, wide)
}

fn eval_high(ks: &[f64], cw: &[f64], n: usize, p: usize, ch: usize, t: f64) -> [f64; WIDEST]
    requires { Curve ks.now cw.now n p ch }
    ensures { result ≡ filled (curve_at ks.now cw.now n p ch t) ch (replicate widest f0) }
{
    let wide = row_width(ch);
    let cells = (p + 1) * wide;
    if cells <= FEW {
        return eval_within::<FEW>(ks, cw, n, p, ch, t, wide);
    }
    if cells <= SOME {
        return eval_within::<SOME>(ks, cw, n, p, ch, t, wide);
    }
    eval_for(cells, ks, cw, n, p, ch, t, wide)
}

// The point at t. The tables and their sizes stand apart, since `Curve` and curve_flat name them so.
pub fn eval(ks: &[f64], cw: &[f64], n: usize, p: usize, ch: usize, t: f64) -> [f64; WIDEST]
    requires { Curve ks.now cw.now n p ch }
    ensures { result ≡ filled (curve_at ks.now cw.now n p ch t) ch (replicate widest f0) }
{
    if p < 5 {
        return eval_low(ks, cw, n, p, ch, t);
    }
    eval_high(ks, cw, n, p, ch, t)
}
