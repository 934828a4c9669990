// The samples of a B-spline, written.
ghost use Rattle.std.specs.Prelude.{◌≡◌, ◌≤◌, length};
ghost use Rattle.floats.specs.Lists.{spliced};
ghost use Rattle.curve_metric.specs.Below.{Below};
ghost use Rattle.curve_walk.specs.Walks.{encode, points_of};
ghost use Rattle.curve_walk.specs.Asks.{Recalls};
ghost use Rattle.curve_spans.specs.Stretches.{spline_samples};
ghost use Rattle.curve_spans.specs.Lefts.{spline_lefts};
ghost use Rattle.curve_spans.specs.Asks.{Spans};

use curve_flat::point_at;
use curve_metric::DEPTH;
use curve_walk::{Interval, Place, Shape};
use curve_write::write_walk;

// Writes the samples' points.
pub fn write_spline(
    s: Shape,
    degree: usize,
    ms: &[usize],
    ks: &[f64],
    cs: &[f64],
    lefts: &[u8],
    out: &mut [u64],
)
    requires spans { Spans s degree ks.now cs.now × Below ms.now s.ch }
    requires recalls { Recalls lefts.now 0 (spline_lefts s degree ms.now ks.now cs.now) }
    requires cs_in_bounds { length (encode (points_of (spline_samples s degree ms.now ks.now cs.now))) ≤ length out.old }
    ensures { out.new
        ≡ spliced out.old 0 (encode (points_of (spline_samples s degree ms.now ks.now cs.now))) }
{
    let n = s.n;
    let ch = s.ch;
    let spans = n - degree;
    let mut at = Place { word: 0, sample: 0 };
    let mut t = 0.0;
    let mut prev = point_at(s, ks, cs, t);
    for j in 0..spans {
        let u = (j + 1) as f64;
        let next = point_at(s, ks, cs, u);
        let h = Interval {
            t0: t,
            t1: u,
            left: DEPTH,
        };
        at = write_walk(s, ms, h, &prev[..ch], &next[..ch], ks, cs, lefts, at, out);
        t = u;
        prev = next;
    }
}
