// De Boor's triangle in work memory: a row of numbers for each control point, one a channel, the last point first. So
// each level goes upwards in place, over the rows that still count.
#![tactic(auto)]

ghost use Rattle.std.specs.Prelude.{◌≡◌, ◌≤◌, ◌<◌, ◌+◌, ◌*◌, ◌-◌, min, length, replicate};
ghost use Rattle.floats.specs.Numbers.{◌⊘◌, f0, at};
ghost use Rattle.floats.specs.Lists.{filled};
ghost use Rattle.layout.specs.Layout.{axis_codes, most_points};
ghost use Rattle.curve_metric.specs.Widest.{widest};
ghost use Rattle.bspline_tables.specs.Basis.{share};
ghost use Rattle.bspline_raise.specs.Climb.{most_wide, Width, Put, Raised, Level, Climbed, Loaded};

use bspline_low::low::share_at;
use bspline_raise::raise_four;
use curve_metric::WIDEST;
use layout::AXIS_CODES;
use point_channels::each_channel;

// Rows are whole fours: so many numbers are raised at once.
pub const LEAST_WIDE: usize = 4;

// The widest rows of all but long lists: ten channels and the weights.
pub const USUAL_WIDE: usize = 12;

// Numbers of a row at most: every axis and the weights. Raising is written out for five fours.
pub const MOST_WIDE: usize = (AXIS_CODES + LEAST_WIDE) / LEAST_WIDE * LEAST_WIDE;

const TWO_FOURS: usize = 2 * LEAST_WIDE;

const THREE_FOURS: usize = 3 * LEAST_WIDE;

const FOUR_FOURS: usize = 4 * LEAST_WIDE;

// The numbers of a row that has ch channels and the weights.
pub fn row_width(ch: usize) -> usize
    requires { ch ≤ axis_codes }
    ensures { Width result × (ch < result) }
{
    (ch / LEAST_WIDE + 1) * LEAST_WIDE
}

// Number s of channel c. What stands past the weights counts for nothing: there they stand again.
fn number_of(cw: &[f64], n: usize, s: usize, ch: usize, c: usize) -> f64
    requires { ((ch + 1) * n ≤ length cw.now) × (s < n) }
    ensures { result ≡ at cw.now (min c ch * n + s) }
{
    cw[c.min(ch) * n + s]
}

// Number s of channel c and of the next three, at i and on. All are read before the first is written, as in `raise_four`.
fn load_four(cw: &[f64], n: usize, s: usize, ch: usize, c: usize, d: &mut [f64], i: usize)
    requires n_in_bounds { ((ch + 1) * n ≤ length cw.now) × (s < n) }
    requires c_le_most_wide { (c ≤ most_wide) × (i + 3 < length d.old) }
    ensures { Put (λ j. at cw.now (min (c + j) ch * n + s)) d.old d.new i 4 }
{
    let x0 = number_of(cw, n, s, ch, c);
    let x1 = number_of(cw, n, s, ch, c + 1);
    let x2 = number_of(cw, n, s, ch, c + 2);
    let x3 = number_of(cw, n, s, ch, c + 3);
    d[i] = x0;
    d[i + 1] = x1;
    d[i + 2] = x2;
    d[i + 3] = x3;
}

fn load_row(cw: &[f64], n: usize, s: usize, ch: usize, wide: usize, d: &mut [f64], i: usize)
    requires n_in_bounds { ((ch + 1) * n ≤ length cw.now) × (s < n) }
    requires width { Width wide }
    requires wide_in_bounds { i + wide ≤ length d.old }
    ensures { Put (λ c. at cw.now (min c ch * n + s)) d.old d.new i wide }
{
    for four in 0..wide / LEAST_WIDE {
        let c = four * LEAST_WIDE;
        load_four(cw, n, s, ch, c, d, i + c);
    }
}

// A row for each control point that bears on span k.
pub fn load_rows(cw: &[f64], n: usize, k: usize, p: usize, ch: usize, wide: usize, d: &mut [f64])
    requires n_in_bounds { ((ch + 1) * n ≤ length cw.now) × ((k < n) × ((n ≤ most_points) × (p ≤ k))) }
    requires width { Width wide × (ch < wide) }
    requires wide_in_bounds { (p + 1) * wide ≤ length d.old }
    ensures { Loaded cw.now d.new n k ch wide (p + 1) }
{
    for h in 0..p + 1 {
        load_row(cw, n, k - h, ch, wide, d, h * wide);
    }
}

// Written out: in a loop over its fours a row took twice as long.
fn raise_row(d: &mut [f64], i: usize, wide: usize, share: f64)
    requires width { Width wide }
    requires wide_in_bounds { i + wide + wide ≤ length d.old }
    ensures { Raised d.old d.new i wide wide share }
{
    raise_four(d, i, wide, share);
    if wide < TWO_FOURS {
        return;
    }
    raise_four(d, i + LEAST_WIDE, wide, share);
    if wide < THREE_FOURS {
        return;
    }
    raise_four(d, i + TWO_FOURS, wide, share);
    if wide < FOUR_FOURS {
        return;
    }
    raise_four(d, i + THREE_FOURS, wide, share);
    if wide < MOST_WIDE {
        return;
    }
    raise_four(d, i + FOUR_FOURS, wide, share);
}

// One level, of m rows.
fn raise_rows(
    ks: &[f64],
    u: f64,
    p: usize,
    k: usize,
    r: usize,
    m: usize,
    wide: usize,
    d: &mut [f64],
)
    requires le_r { (1 ≤ r) × ((r ≤ p) × ((p ≤ k) × (k + p < length ks.now))) }
    requires width { Width wide }
    requires m_le_p { (m ≤ p) × ((p + 1) * wide ≤ length d.old) }
    ensures { Level d.old d.new wide m (λ h. share ks.now u p k r (p - h)) }
{
    for h in 0..m {
        raise_row(d, h * wide, wide, share_at(ks, u, p, k, r, p - h));
    }
}

// All p levels.
pub fn climb_up(ks: &[f64], u: f64, p: usize, k: usize, wide: usize, d: &mut [f64])
    requires p_le_k { (p ≤ k) × (k + p < length ks.now) }
    requires width { Width wide }
    requires wide_in_bounds { (p + 1) * wide ≤ length d.old }
    ensures { Climbed ks.now u p k wide d.old d.new p }
{
    for r in 0..p {
        raise_rows(ks, u, p, k, r + 1, p - r, wide, d);
    }
}

// The first ch numbers, by number ch.
pub fn project_first(d: &[f64], ch: usize) -> [f64; WIDEST]
    requires ch_in_bounds { ch < length d.now }
    requires ch_le_axis_codes { ch ≤ axis_codes }
    ensures { result ≡ filled (λ c. at d.now c ⊘ at d.now ch) ch (replicate widest f0) }
{
    let by = d[ch];
    each_channel(ch, |c| d[c] / by)
}
