// The runs of a spline: prepared, counted, written.
ghost use Rattle.std.specs.Prelude.{◌≡◌, [], ℕ, ◌≤◌, ◌-◌, ◌*◌, length, get_or};
ghost use Rattle.floats.specs.Lists.{filled, flatten, spliced};
ghost use Rattle.layout.specs.Layout.{axis_codes, most_points};
ghost use Rattle.curve_metric.specs.Below.{Below};
ghost use Rattle.curve_walk.specs.Walks.{encode};
ghost use Rattle.curve_drawing.specs.Runs.{shape_of, drawn_runs};
ghost use Rattle.curve_runs.specs.Asks.{Controls, Ready, Remembers};

use crate::shape_of;
use curve_drawing::Drawing;
use curve_segments::count::count_segments;
use curve_segments::write::write_segments;
use curve_spans::count::count_spline;
use curve_spans::write::write_spline;
use curve_walk::{Form, Kept};
use fit_tables::lay_fit;
use motion::{is_basis, is_cubic};

// Fills the tables of the points that the curve runs through or is drawn to.
pub fn prepare(
    d: Drawing,
    ms: &[usize],
    pts: &[f64],
    ws: &[f64],
    ks: &mut [f64],
    cs: &mut [f64],
) -> Form
    requires le_n { (2 ≤ d.n) × ((d.n ≤ most_points) × (d.ch ≤ axis_codes)) }
    requires below { Below ms.now d.ch × ((d.n * d.ch ≤ length pts.now) × (d.n ≤ length ws.now)) }
    requires n_in_bounds { (2 * d.n ≤ length ks.old) × Controls d.n d.ch cs.old }
    ensures { Ready d result ms.now pts.now ws.now ks.new cs.new }
{
    let kind = d.kind;
    let n = d.n;
    let ch = d.ch;
    if is_basis(kind) {
        let degree = bspline_prepare::prepare_basis(pts, ws, n, ch, d.degree, ks, cs);
        return Form::Basis(degree);
    }
    let cubic = is_cubic(kind);
    let points = lay_fit(cubic, n, ch, ms, pts, ks, cs);
    Form::Fit(Kept {
        points: points,
        piece: 0,
    })
}

// The length of the run of each point after the start; for the writing, as far as lefts reaches, the halvings left at
// each sample.
pub fn count_runs(
    d: Drawing,
    form: Form,
    ms: &[usize],
    pts: &[f64],
    ws: &[f64],
    ks: &[f64],
    cs: &[f64],
    counts: &mut [usize],
    lefts: &mut [u8],
)
    requires ready { Ready d form ms.now pts.now ws.now ks.now cs.now }
    requires n_in_bounds { d.n - 1 ≤ length counts.old }
    ensures counts_after { counts.new
        ≡ filled (λ (i : ℕ). length (get_or (drawn_runs d ms.now pts.now ws.now) i [])) (d.n - 1) counts.old }
    ensures remembers { Remembers (shape_of d form) ms.now pts.now ks.now cs.now lefts.new }
{
    let s = shape_of(d, form);
    counts[..d.n - 1].fill(0);
    match form {
        Form::Basis(degree) => {
            count_spline(s, degree, ms, ks, cs, counts, lefts);
        }
        Form::Fit(k) => {
            if k.points < 2 {
                return;
            }
            count_segments(s, k, ms, pts, ks, cs, counts, lefts);
        }
    }
}

// The points of all runs, one after another. The match is count_runs's: shared, it would need a trait, which is no plainer.
pub fn write_runs(
    d: Drawing,
    form: Form,
    ms: &[usize],
    pts: &[f64],
    ws: &[f64],
    ks: &[f64],
    cs: &[f64],
    lefts: &[u8],
    out: &mut [u64],
)
    requires ready { Ready d form ms.now pts.now ws.now ks.now cs.now }
    requires remembers { Remembers (shape_of d form) ms.now pts.now ks.now cs.now lefts.now }
    requires ws_in_bounds { length (encode (flatten (drawn_runs d ms.now pts.now ws.now))) ≤ length out.old }
    ensures { out.new
        ≡ spliced out.old 0 (encode (flatten (drawn_runs d ms.now pts.now ws.now))) }
{
    let s = shape_of(d, form);
    match form {
        Form::Basis(degree) => {
            write_spline(s, degree, ms, ks, cs, lefts, out);
        }
        Form::Fit(k) => {
            if k.points < 2 {
                return;
            }
            write_segments(s, k, ms, pts, ks, cs, lefts, out);
        }
    }
}
