// The samples of a B-spline, counted.
ghost use Rattle.std.specs.Prelude.{◌≡◌};
ghost use Rattle.std.proofs.lemmas.List.Edits.{sets};
ghost use Rattle.curve_metric.specs.Below.{Below};
ghost use Rattle.curve_walk.specs.Walks.{own_of, counted};
ghost use Rattle.curve_walk.specs.Asks.{Fresh};
ghost use Rattle.curve_spans.specs.Stretches.{spline_samples};
ghost use Rattle.curve_spans.specs.Lefts.{spline_lefts};
ghost use Rattle.curve_spans.specs.Asks.{Spans};

use curve_count::count_walk;
use curve_flat::point_at;
use curve_metric::DEPTH;
use curve_walk::{Interval, Reached, Shape};

// Counts the samples by owner, and remembers the halvings left at each.
pub fn count_spline(
    s: Shape,
    degree: usize,
    ms: &[usize],
    ks: &[f64],
    cs: &[f64],
    counts: &mut [usize],
    lefts: &mut [u8],
)
    requires { Spans s degree ks.now cs.now × (Below ms.now s.ch × Fresh s counts.old) }
    ensures counts_after { counts.new
        ≡ counted (own_of s ks.now) 1 (spline_samples s degree ms.now ks.now cs.now) counts.old }
    ensures lefts_after { lefts.new
        ≡ sets lefts.old 0 (spline_lefts s degree ms.now ks.now cs.now) }
{
    let n = s.n;
    let ch = s.ch;
    let spans = n - degree;
    let mut at = Reached {
        owner: 1,
        sample: 0,
    };
    let mut t = 0.0;
    let mut prev = point_at(s, ks, cs, t);
    for j in 0..spans {
        let u = (j + 1) as f64;
        let next = point_at(s, ks, cs, u);
        let h = Interval {
            t0: t,
            t1: u,
            left: DEPTH,
        };
        at = count_walk(
            s,
            ms,
            h,
            &prev[..ch],
            &next[..ch],
            ks,
            cs,
            at,
            counts,
            lefts,
        );
        t = u;
        prev = next;
    }
}
