// A prepared fit is evaluated: the piece that t lies in, and each channel's cubic there.
#![tactic(auto)]

ghost use Rattle.std.specs.Prelude.{◌≡◌, ◌≤◌, ◌<◌, ◌+◌, ◌*◌, length, replicate};
ghost use Rattle.floats.specs.Numbers.{f0, at};
ghost use Rattle.floats.specs.Lists.{filled};
ghost use Rattle.curve_metric.specs.Widest.{widest};
ghost use Rattle.fit_knots.specs.Memory.{Prepared, fit_at};
ghost use Rattle.fit_point.specs.Channels.{BlendIs, blend_of, channel_of};

use curve_metric::WIDEST;
use fit_piece::piece_near;
use fit_slopes::steps::step_at;
use point_channels::each_channel;

// Number j of row i, of n numbers each.
fn cell(xs: &[f64], i: usize, n: usize, j: usize) -> f64
    requires { i * n + j < length xs.now }
    ensures { result ≡ at xs.now (i * n + j) }
{
    xs[i * n + j]
}

// What the ends of a piece, y and z, and its slopes there, m and k, are multiplied by at one place of it.
#[derive(Clone, Copy)]
pub struct Blend {
    pub y: f64,
    pub m: f64,
    pub z: f64,
    pub k: f64,
}

// At the fraction s of a step h.
fn blend_at(s: f64, h: f64) -> Blend
    ensures { BlendIs s h result }
{
    let s2 = s * s;
    let s3 = s * s * s;
    Blend {
        y: 2.0 * s3 - 3.0 * s2 + 1.0,
        m: (s3 - 2.0 * s2 + s) * h,
        z: -2.0 * s3 + 3.0 * s2,
        k: (s3 - s2) * h,
    }
}

fn blended(b: Blend, y: f64, m: f64, z: f64, k: f64) -> f64
    ensures { result ≡ blend_of b y m z k }
{
    b.y * y + b.m * m + b.z * z + b.k * k
}

// Channel c of the piece after knot w.
fn channel_at(b: Blend, fps: &[f64], slopes: &[f64], m: usize, ch: usize, w: usize, c: usize) -> f64
    requires { (c < ch) × ((w + 1 < m) × ((m * ch ≤ length fps.now) × (ch * m ≤ length slopes.now))) }
    ensures { result ≡ channel_of b fps.now slopes.now m ch w c }
{
    blended(
        b,
        cell(fps, w, ch, c),
        cell(slopes, c, m, w),
        cell(fps, w + 1, ch, c),
        cell(slopes, c, m, w + 1),
    )
}

// The point of the curve at t; where the hint is the piece that t lies in, it is not searched for.
pub fn eval_fit(
    fts: &[f64],
    fps: &[f64],
    slopes: &[f64],
    m: usize,
    ch: usize,
    t: f64,
    hint: usize,
) -> [f64; WIDEST]
    requires { Prepared fts.now fps.now slopes.now m ch }
    ensures { result ≡ filled (fit_at fts.now fps.now slopes.now m ch t) ch (replicate widest f0) }
{
    let w = piece_near(fts, m, t, hint);
    let h = step_at(fts, w);
    let b = blend_at(floats::held_in(0.0, 1.0, (t - fts[w]) / h), h);
    each_channel(ch, |c| channel_at(b, fps, slopes, m, ch, w, c))
}
