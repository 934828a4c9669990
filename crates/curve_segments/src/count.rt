// The samples of a fit, counted.
ghost use Rattle.std.specs.Prelude.{◌≡◌, ◌-◌, length, set};
ghost use Rattle.std.proofs.lemmas.List.Edits.{sets};
ghost use Rattle.floats.specs.Lists.{filled};
ghost use Rattle.curve_metric.specs.Walk.{depth};
ghost use Rattle.curve_walk.specs.Asks.{Fresh, Stored, Cursor};
ghost use Rattle.curve_walk.specs.Lefts.{joined};
ghost use Rattle.curve_segments.specs.Stretches.{fit_run_at};
ghost use Rattle.curve_segments.specs.Lefts.{fit_lefts};
ghost use Rattle.curve_segments.specs.Asks.{Segments, FreshAt};

use crate::at_stretch;
use curve_count::count_walk;
use curve_metric::DEPTH;
use curve_owner::remember;
use curve_walk::{Form, Interval, Kept, Reached, Shape};
use floats::TINY;

// Counts the samples of the stretch from point i to the next, c samples after the start, and returns how many there are then.
fn count_segment(
    s: Shape,
    ms: &[usize],
    pts: &[f64],
    ks: &[f64],
    cs: &[f64],
    i: usize,
    c: usize,
    counts: &mut [usize],
    lefts: &mut [u8],
) -> usize
    requires segments { Segments s ms.now pts.now ks.now cs.now }
    requires fresh_at { FreshAt s i counts.old × Cursor c depth }
    ensures counts_after { counts.new
        ≡ set counts.old i (length (fit_run_at s ms.now pts.now ks.now cs.now i)) }
    ensures stored { Stored lefts.old c
        (fit_lefts s ms.now pts.now ks.now cs.now i) result lefts.new }
{
    let ch = s.ch;
    let next = i + 1;
    let t0 = ks[i];
    let t1 = ks[next];
    if t1 - t0 <= TINY {
        counts[i] = 1;
        remember(lefts, c, 0);
        return c + 1;
    }
    let a = i * ch;
    let b = a + ch;
    let e = b + ch;
    let start = Reached {
        owner: next,
        sample: c,
    };
    let h = Interval {
        t0,
        t1,
        left: DEPTH,
    };
    let reached = count_walk(
        s,
        ms,
        h,
        &pts[a..b],
        &pts[b..e],
        ks,
        cs,
        start,
        counts,
        lefts,
    );
    reached.sample
}

// Counts the samples of every stretch.
pub fn count_segments(
    s: Shape,
    k: Kept,
    ms: &[usize],
    pts: &[f64],
    ks: &[f64],
    cs: &[f64],
    counts: &mut [usize],
    lefts: &mut [u8],
)
    requires segments { Segments s ms.now pts.now ks.now cs.now × (s.form ≡ Form.Fit k) }
    requires fresh { Fresh s counts.old }
    ensures counts_after { counts.new ≡ filled
        (λ i. length (fit_run_at s ms.now pts.now ks.now cs.now i)) (s.n - 1) counts.old }
    ensures lefts_after { lefts.new ≡ sets lefts.old 0
        (joined (fit_lefts s ms.now pts.now ks.now cs.now) (s.n - 1)) }
{
    let mut c = 0;
    for i in 0..s.n - 1 {
        let here = at_stretch(s, k, ks, i + 1);
        c = count_segment(here, ms, pts, ks, cs, i, c, counts, lefts);
    }
}
