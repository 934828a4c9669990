// The halving of a stretch of a curve: its samples counted by owner, with what the writing will remember.
#![tactic(auto)]

ghost use Rattle.curve_walk.specs.Walks.{own_of, samples_in};
ghost use Rattle.curve_walk.specs.Asks.{Stretch, Counted, Counts, Stored, Cursor};
ghost use Rattle.curve_walk.specs.Lefts.{lefts_in};

use curve_flat::{is_flat, point_at};
use curve_owner::count_sample;
use curve_walk::{Interval, Reached, Shape};

// Counts the samples of the stretch, and remembers the halvings left at each.
pub fn count_walk(
    s: Shape,
    ms: &[usize],
    h: Interval,
    p0: &[f64],
    p1: &[f64],
    ks: &[f64],
    cs: &[f64],
    at: Reached,
    counts: &mut [usize],
    lefts: &mut [u8],
) -> Reached
    requires stretch { Stretch s ms.now ks.now cs.now p0.now p1.now }
    requires counts { Counts s at.owner h.left counts.old × Cursor at.sample h.left }
    ensures counted { Counted (own_of s ks.now) at.owner
        (samples_in s h ms.now ks.now cs.now p0.now p1.now)
        counts.old result.owner counts.new }
    ensures stored { Stored lefts.old at.sample
        (lefts_in s h ms.now ks.now cs.now p0.now p1.now)
        result.sample lefts.new }
{
    let t0 = h.t0;
    let t1 = h.t1;
    let left = h.left;
    if left == 0 {
        return count_sample(s, 0, t1, ks, at, counts, lefts);
    }
    let ch = s.ch;
    let tm = 0.5 * (t0 + t1);
    let pm = point_at(s, ks, cs, tm);
    if is_flat(s, ms, h, p0, p1, &pm[..ch], ks, cs) {
        return count_sample(s, left, t1, ks, at, counts, lefts);
    }
    let less = left - 1;
    let first = Interval {
        t0,
        t1: tm,
        left: less,
    };
    let other = Interval {
        t0: tm,
        t1,
        left: less,
    };
    let reached = count_walk(s, ms, first, p0, &pm[..ch], ks, cs, at, counts, lefts);
    count_walk(s, ms, other, &pm[..ch], p1, ks, cs, reached, counts, lefts)
}
