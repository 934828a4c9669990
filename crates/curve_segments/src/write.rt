// The samples of a fit, written.
ghost use Rattle.std.specs.Prelude.{◌≡◌, ◌≤◌, ◌+◌, ◌-◌, length};
ghost use Rattle.floats.specs.Lists.{upto, flatten, spliced};
ghost use Rattle.curve_metric.specs.Walk.{depth};
ghost use Rattle.curve_walk.specs.Walks.{encode};
ghost use Rattle.curve_walk.specs.Asks.{Written, Recalls, Cursor};
ghost use Rattle.curve_walk.specs.Lefts.{joined};
ghost use Rattle.curve_segments.specs.Stretches.{fit_run_at};
ghost use Rattle.curve_segments.specs.Lefts.{fit_lefts};
ghost use Rattle.curve_segments.specs.Asks.{Segments};

use crate::at_stretch;
use curve_metric::DEPTH;
use curve_put::put_sample;
use curve_walk::{Form, Interval, Kept, Place, Shape};
use curve_write::write_walk;
use floats::TINY;

// Writes the points of the stretch from point i to the next, and returns the place after them.
fn write_segment(
    s: Shape,
    ms: &[usize],
    pts: &[f64],
    ks: &[f64],
    cs: &[f64],
    i: usize,
    lefts: &[u8],
    at: Place,
    out: &mut [u64],
) -> Place
    requires segments { Segments s ms.now pts.now ks.now cs.now }
    requires recalls { Recalls lefts.now at.sample (fit_lefts s ms.now pts.now ks.now cs.now i) × Cursor at.sample depth }
    requires i_bound { (i + 1 ≤ s.n - 1) × (at.word + length (encode (fit_run_at s ms.now pts.now ks.now cs.now i)) ≤ length out.old) }
    ensures written { Written out.old at.word
        (fit_run_at s ms.now pts.now ks.now cs.now i) result.word out.new }
    ensures sample_value { result.sample ≡ at.sample
        + length (fit_lefts s ms.now pts.now ks.now cs.now i) }
{
    let ch = s.ch;
    let next = i + 1;
    let a = i * ch;
    let b = a + ch;
    let e = b + ch;
    let t0 = ks[i];
    let t1 = ks[next];
    if t1 - t0 <= TINY {
        return put_sample(&pts[b..e], out, at);
    }
    let h = Interval {
        t0,
        t1,
        left: DEPTH,
    };
    write_walk(s, ms, h, &pts[a..b], &pts[b..e], ks, cs, lefts, at, out)
}

// Writes the points of every stretch.
pub fn write_segments(
    s: Shape,
    k: Kept,
    ms: &[usize],
    pts: &[f64],
    ks: &[f64],
    cs: &[f64],
    lefts: &[u8],
    out: &mut [u64],
)
    requires segments { Segments s ms.now pts.now ks.now cs.now × (s.form ≡ Form.Fit k) }
    requires recalls { Recalls lefts.now 0 (joined (fit_lefts s ms.now pts.now ks.now cs.now) (s.n - 1)) }
    requires n_in_bounds { length (encode (flatten (upto (fit_run_at s ms.now pts.now ks.now cs.now) (s.n - 1)))) ≤ length out.old }
    ensures { out.new ≡ spliced out.old 0
        (encode (flatten (upto (fit_run_at s ms.now pts.now ks.now cs.now) (s.n - 1)))) }
{
    let mut at = Place { word: 0, sample: 0 };
    for i in 0..s.n - 1 {
        let here = at_stretch(s, k, ks, i + 1);
        at = write_segment(here, ms, pts, ks, cs, i, lefts, at, out);
    }
}
