// The halving of a stretch of a curve once more: its samples written, stopping where the count did.
#![tactic(auto)]

ghost use Rattle.std.specs.Prelude.{◌≡◌, false, cond, ◌≤◌, ◌+◌, ltb, length};
ghost use Rattle.curve_metric.specs.Walk.{flat};
ghost use Rattle.curve_walk.specs.Walks.{encode, eval_of, samples_in, points_of};
ghost use Rattle.curve_walk.specs.Asks.{Stretch, Written, Recalls, Cursor};
ghost use Rattle.curve_walk.specs.Lefts.{lefts_in};

use curve_flat::{is_flat, point_at};
use curve_put::{is_remembered, put_sample};
use curve_walk::{Interval, Place, Shape};

// Whether the chord will do, asked of the curve for the samples from `reach` on alone.
fn is_flat_from(
    s: Shape,
    ms: &[usize],
    h: Interval,
    p0: &[f64],
    p1: &[f64],
    pm: &[f64],
    ks: &[f64],
    cs: &[f64],
    c: usize,
    reach: usize,
) -> bool
    requires stretch { Stretch s ms.now ks.now cs.now p0.now p1.now }
    requires pm_len { length pm.now ≡ s.ch }
    ensures { result ≡ cond (ltb c reach) false (flat (eval_of s ks.now cs.now) ms.now s.tol
        h.t0 p0.now h.t1 p1.now pm.now) }
{
    c >= reach && is_flat(s, ms, h, p0, p1, pm, ks, cs)
}

// Writes the points of the stretch, and stops where the count did.
// No one walk with count_walk: a trait's laws would need the memory's answer and the second test, and be no plainer.
pub fn write_walk(
    s: Shape,
    ms: &[usize],
    h: Interval,
    p0: &[f64],
    p1: &[f64],
    ks: &[f64],
    cs: &[f64],
    lefts: &[u8],
    at: Place,
    out: &mut [u64],
) -> Place
    requires stretch { Stretch s ms.now ks.now cs.now p0.now p1.now }
    requires recalls { Recalls lefts.now at.sample (lefts_in s h ms.now ks.now cs.now p0.now p1.now) × Cursor at.sample h.left }
    requires p1_in_bounds { at.word + length (encode (points_of (samples_in s h ms.now ks.now cs.now p0.now p1.now))) ≤ length out.old }
    ensures written { Written out.old at.word
        (points_of (samples_in s h ms.now ks.now cs.now p0.now p1.now))
        result.word out.new }
    ensures sample_value { result.sample ≡ at.sample
        + length (lefts_in s h ms.now ks.now cs.now p0.now p1.now) }
{
    let t0 = h.t0;
    let t1 = h.t1;
    let left = h.left;
    if left == 0 {
        return put_sample(p1, out, at);
    }
    let c = at.sample;
    if is_remembered(lefts, c, left) {
        return put_sample(p1, out, at);
    }
    let reach = lefts.len();
    let ch = s.ch;
    let tm = 0.5 * (t0 + t1);
    let pm = point_at(s, ks, cs, tm);
    if is_flat_from(s, ms, h, p0, p1, &pm[..ch], ks, cs, c, reach) {
        return put_sample(p1, out, at);
    }
    let less = left - 1;
    let first = Interval {
        t0,
        t1: tm,
        left: less,
    };
    let other = Interval {
        t0: tm,
        t1,
        left: less,
    };
    let mid = write_walk(s, ms, first, p0, &pm[..ch], ks, cs, lefts, at, out);
    write_walk(s, ms, other, &pm[..ch], p1, ks, cs, lefts, mid, out)
}
