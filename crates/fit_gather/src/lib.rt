// A fit is prepared: the kept points' times, their numbers, and each channel's slopes.
#![tactic(auto)]

ghost use Rattle.std.specs.Prelude.{◌≡◌, ℕ, ◌≤◌, ◌<◌, ◌+◌, ◌*◌, length};
ghost use Rattle.floats.specs.Numbers.{at};
ghost use Rattle.floats.specs.Lists.{filled};
ghost use Rattle.curve_metric.specs.Below.{Below};
ghost use Rattle.layout.specs.Layout.{most_points};
ghost use Rattle.fit_knots.specs.Blocks.{Block, Blocks};
ghost use Rattle.fit_knots.specs.Prepare.{slope_of, time_at, number_at, channel_at, TimesRise, FitRoom, Gathered};

use fit_cubic::natural_cubic_slopes;
use fit_slopes::akima::akima_slopes;
use fit_slopes::sizes::SMALL_POINTS;
use layout::MOST_POINTS;
use number_copy::copy;

// The times of the points ks.
fn gather_times(ts: &[f64], ks: &[usize], out: &mut [f64])
    requires below { Below ks.now (length ts.now) }
    requires ks_in_bounds { length ks.now ≤ length out.old }
    ensures { out.new ≡ filled (time_at ts.now ks.now) (length ks.now) out.old }
{
    for (k, i) in ks.iter().enumerate() {
        out[k] = ts[*i];
    }
}

// The points ks of n, ch numbers each.
fn gather_points(pts: &[f64], ch: usize, ks: &[usize], n: usize, out: &mut [f64])
    requires below { Below ks.now n }
    requires ch_in_bounds { (n * ch ≤ length pts.now) × (length ks.now * ch ≤ length out.old) }
    ensures { Blocks (number_at pts.now ch ks.now) ch (length ks.now) out.new }
{
    for (w, i) in ks.iter().enumerate() {
        let from = *i * ch;
        let to = w * ch;
        let numbers = &pts[from..from + ch];
        copy(numbers, &mut out[to..to + ch]);
    }
}

// Channel c of m points.
fn column(fps: &[f64], ch: usize, m: usize, c: usize, out: &mut [f64])
    requires { (c < ch) × ((m * ch ≤ length fps.now) × (m ≤ length out.old)) }
    ensures { out.new ≡ filled (λ (w : ℕ). at fps.now (w * ch + c)) m out.old }
{
    for w in 0..m {
        out[w] = fps[w * ch + c];
    }
}

// The slopes at n knots, of either kind of spline.
fn slopes_of(cubic: bool, ts: &[f64], ys: &[f64], n: usize, out: &mut [f64])
    requires le_n { (2 ≤ n) × (n ≤ most_points) }
    requires n_in_bounds { (n ≤ length ts.now) × ((n ≤ length ys.now) × (n ≤ length out.old)) }
    ensures { out.new ≡ filled (slope_of cubic ts.now ys.now n) n out.old }
{
    if cubic {
        natural_cubic_slopes(ts, ys, n, out);
    } else {
        akima_slopes(ts, ys, n, out);
    }
}

// The slopes of channel c, as block c. ys is room for its numbers.
fn channel_slopes(
    cubic: bool,
    fts: &[f64],
    fps: &[f64],
    m: usize,
    ch: usize,
    c: usize,
    ys: &mut [f64],
    slopes: &mut [f64],
)
    requires le_m { (2 ≤ m) × ((m ≤ most_points) × ((m ≤ length fts.now) × (length ys.old ≡ m))) }
    requires c_lt_ch { (c < ch) × ((m * ch ≤ length fps.now) × (ch * m ≤ length slopes.old)) }
    ensures { Block (channel_at cubic fts.now fps.now ch m c) (c * m) m slopes.old slopes.new }
{
    let a = c * m;
    let e = a + m;
    column(fps, ch, m, c, ys);
    slopes_of(cubic, &fts[..m], ys, m, &mut slopes[a..e]);
}

// The slopes of the ch channels, one block after another. N is room for the numbers of one: the fewer, the less to clear.
fn slopes_in<const N: usize>(
    cubic: bool,
    fts: &[f64],
    fps: &[f64],
    m: usize,
    ch: usize,
    slopes: &mut [f64],
)
    requires le_m { (2 ≤ m) × ((m ≤ N) × ((N ≤ most_points) × (m ≤ length fts.now))) }
    requires ch_in_bounds { (m * ch ≤ length fps.now) × (ch * m ≤ length slopes.old) }
    ensures { Blocks (channel_at cubic fts.now fps.now ch m) m ch slopes.new }
{
    let mut ys = [0.0f64; N];
    for c in 0..ch {
        channel_slopes(cubic, fts, fps, m, ch, c, &mut ys[..m], slopes);
    }
}

// The slopes of all channels, with as much room as m points need.
fn gather_slopes(cubic: bool, fts: &[f64], fps: &[f64], m: usize, ch: usize, slopes: &mut [f64])
    requires le_m { (2 ≤ m) × ((m ≤ most_points) × (m ≤ length fts.now)) }
    requires ch_in_bounds { (m * ch ≤ length fps.now) × (ch * m ≤ length slopes.old) }
    ensures { Blocks (channel_at cubic fts.now fps.now ch m) m ch slopes.new }
{
    if m <= SMALL_POINTS {
        slopes_in::<SMALL_POINTS>(cubic, fts, fps, m, ch, slopes);
    } else {
        slopes_in::<MOST_POINTS>(cubic, fts, fps, m, ch, slopes);
    }
}

// The fit through the points ks of n.
pub fn gather(
    cubic: bool,
    pts: &[f64],
    ts: &[f64],
    ks: &[usize],
    n: usize,
    ch: usize,
    fts: &mut [f64],
    fps: &mut [f64],
    slopes: &mut [f64],
)
    requires fit_room { FitRoom pts.now ts.now fts.old fps.old slopes.old n ch }
    requires below { Below ks.now n }
    requires in_bounds { (2 ≤ length ks.now) × (length ks.now ≤ n) }
    requires times_rise { TimesRise ts.now ks.now }
    ensures { Gathered cubic pts.now ch n ts.now ks.now fts.new fps.new slopes.new }
{
    let m = ks.len();
    gather_times(ts, ks, fts);
    gather_points(pts, ch, ks, n, fps);
    gather_slopes(cubic, fts, fps, m, ch, slopes);
}
