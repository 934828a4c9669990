// ASPLINE and CSPLINE: the points kept, and the fit through them.
#![tactic(auto)]

pub mod kept;

ghost use Rattle.std.specs.Prelude.{◌≤◌};
ghost use Rattle.floats.specs.Lists.{rows_of};
ghost use Rattle.layout.specs.Layout.{most_points};
ghost use Rattle.fit_knots.specs.Prepare.{FitRoom, FitReady};

use crate::kept::keep;
use fit_gather::gather;
use fit_slopes::sizes::SMALL_POINTS;
use layout::MOST_POINTS;

// What `prepare_fit` does. N is room for the kept points: the fewer, the less to clear.
fn fit_in<const N: usize>(
    cubic: bool,
    pts: &[f64],
    ts: &[f64],
    n: usize,
    ch: usize,
    fts: &mut [f64],
    fps: &mut [f64],
    slopes: &mut [f64],
) -> usize
    requires fit_room { FitRoom pts.now ts.now fts.old fps.old slopes.old n ch }
    requires n_in_bounds { (n ≤ N) × (N ≤ most_points) }
    ensures { FitReady cubic (rows_of pts.now ch n) ts.now n ch fts.new fps.new slopes.new result }
{
    let mut ks = [0usize; N];
    let m = keep(ts, n, &mut ks);
    if m < 2 {
        return m;
    }
    gather(cubic, pts, ts, &ks[..m], n, ch, fts, fps, slopes);
    m
}

// The fit through the n points pts, of ch numbers each, whose chord sums are ts: the number of knots kept. Where it is
// two or more, fts holds their times, fps their points, and slopes for each channel the slopes at all of them (`FitReady`).
pub fn prepare_fit(
    cubic: bool,
    pts: &[f64],
    ts: &[f64],
    n: usize,
    ch: usize,
    fts: &mut [f64],
    fps: &mut [f64],
    slopes: &mut [f64],
) -> usize
    requires { FitRoom pts.now ts.now fts.old fps.old slopes.old n ch }
    ensures { FitReady cubic (rows_of pts.now ch n) ts.now n ch fts.new fps.new slopes.new result }
{
    if n <= SMALL_POINTS {
        return fit_in::<SMALL_POINTS>(cubic, pts, ts, n, ch, fts, fps, slopes);
    }
    fit_in::<MOST_POINTS>(cubic, pts, ts, n, ch, fts, fps, slopes)
}
