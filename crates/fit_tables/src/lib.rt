// The tables of a fit: the chord sums of its points, and the fit through those that were kept.
#![tactic(auto)]

ghost use Rattle.std.specs.Prelude.{◌≤◌, ◌*◌, length};
ghost use Rattle.curve_metric.specs.Below.{Below};
ghost use Rattle.layout.specs.Layout.{axis_codes, most_points};
ghost use Rattle.fit_tables.specs.Asks.{Fitted};

use fit_slopes::sizes::SMALL_POINTS;
use layout::{AXIS_CODES, MOST_POINTS};
use number_copy::copy;

// Work memory goes by the numbers of a spline, its points times its channels. Its sizes are those of a short spline with the usual
// channels, and of a long one with few (three axes, and one that turns), with the usual and with all.
const FEW_CHANNELS: usize = 4;

pub const USUAL_CHANNELS: usize = 10;

pub const SMALL_NUMBERS: usize = USUAL_CHANNELS * SMALL_POINTS;

pub const LARGE_NUMBERS: usize = FEW_CHANNELS * MOST_POINTS;

pub const WIDE_NUMBERS: usize = USUAL_CHANNELS * MOST_POINTS;

pub const MOST_NUMBERS: usize = AXIS_CODES * MOST_POINTS;

// The chord sums and the fit of n points, of ch numbers each, by way of ts and slopes: returns the points kept.
fn lay_in(
    cubic: bool,
    n: usize,
    ch: usize,
    ms: &[usize],
    pts: &[f64],
    ks: &mut [f64],
    cs: &mut [f64],
    ts: &mut [f64],
    slopes: &mut [f64],
) -> usize
    requires le_n { (2 ≤ n) × ((n ≤ most_points) × (ch ≤ axis_codes)) }
    requires below { Below ms.now ch × (n * ch ≤ length pts.now) }
    requires n_in_bounds { (2 * n ≤ length ks.old) × (2 * (n * ch) ≤ length cs.old) }
    requires n_in_bounds_2 { (n ≤ length ts.old) × (n * ch ≤ length slopes.old) }
    ensures { Fitted cubic n ch ms.now pts.now result ks.new cs.new }
{
    let times = n + n;
    let w = n * ch;
    let end = w + w;
    curve_chords::chord_parameters(pts, ch, ms, n, ts);
    copy(&ts[..n], &mut ks[..n]);
    let m = fit_prepare::prepare_fit(
        cubic,
        pts,
        &ts[..n],
        n,
        ch,
        &mut ks[n..times],
        &mut cs[..w],
        &mut slopes[..w],
    );
    copy(&slopes[..w], &mut cs[w..end]);
    m
}

// The same in work memory for so many points and numbers.
fn lay_within<const POINTS: usize, const NUMBERS: usize>(
    cubic: bool,
    n: usize,
    ch: usize,
    ms: &[usize],
    pts: &[f64],
    ks: &mut [f64],
    cs: &mut [f64],
) -> usize
    requires room { (n ≤ POINTS) × (n * ch ≤ NUMBERS) }
    requires few { (POINTS ≤ most_points) × (NUMBERS ≤ axis_codes * most_points) }
    requires le_n { (2 ≤ n) × (ch ≤ axis_codes) }
    requires below { Below ms.now ch × (n * ch ≤ length pts.now) }
    requires n_in_bounds { (2 * n ≤ length ks.old) × (2 * (n * ch) ≤ length cs.old) }
    ensures { Fitted cubic n ch ms.now pts.now result ks.new cs.new }
{
    let mut ts = [0.0f64; POINTS];
    let mut slopes = [0.0f64; NUMBERS];
    lay_in(cubic, n, ch, ms, pts, ks, cs, &mut ts, &mut slopes)
}

// The same in work memory for `size` numbers. It calls itself so that each memory has a frame of its own (crate spline_emit).
#[inline(never)]
fn lay_for(
    size: usize,
    cubic: bool,
    n: usize,
    ch: usize,
    ms: &[usize],
    pts: &[f64],
    ks: &mut [f64],
    cs: &mut [f64],
) -> usize
    requires ch_bound { n * ch ≤ size }
    requires le_n { (2 ≤ n) × ((n ≤ most_points) × (ch ≤ axis_codes)) }
    requires below { Below ms.now ch × (n * ch ≤ length pts.now) }
    requires n_in_bounds { (2 * n ≤ length ks.old) × (2 * (n * ch) ≤ length cs.old) }
    ensures { Fitted cubic n ch ms.now pts.now result ks.new cs.new }
{
    if n <= SMALL_POINTS && size <= SMALL_NUMBERS {
        return lay_within::<SMALL_POINTS, SMALL_NUMBERS>(cubic, n, ch, ms, pts, ks, cs);
    }
    if size <= LARGE_NUMBERS {
        return lay_within::<MOST_POINTS, LARGE_NUMBERS>(cubic, n, ch, ms, pts, ks, cs);
    }
    if size <= WIDE_NUMBERS {
        return lay_within::<MOST_POINTS, WIDE_NUMBERS>(cubic, n, ch, ms, pts, ks, cs);
    }
    if size <= MOST_NUMBERS {
        return lay_within::<MOST_POINTS, MOST_NUMBERS>(cubic, n, ch, ms, pts, ks, cs);
    }
    lay_for(size - 1, cubic, n, ch, ms, pts, ks, cs)
}

// The chord sums and the fit of n points, of ch numbers each: returns the points kept. The kind is a bool, since the
// definitions (`fit_of`, `FitReady`) take it as one; the slices stand apart, since `Fitted` and curve_runs name them so.
pub fn lay_fit(
    cubic: bool,
    n: usize,
    ch: usize,
    ms: &[usize],
    pts: &[f64],
    ks: &mut [f64],
    cs: &mut [f64],
) -> usize
    requires le_n { (2 ≤ n) × ((n ≤ most_points) × (ch ≤ axis_codes)) }
    requires below { Below ms.now ch × (n * ch ≤ length pts.now) }
    requires n_in_bounds { (2 * n ≤ length ks.old) × (2 * (n * ch) ≤ length cs.old) }
    ensures { Fitted cubic n ch ms.now pts.now result ks.new cs.new }
{
    lay_for(n * ch, cubic, n, ch, ms, pts, ks, cs)
}
