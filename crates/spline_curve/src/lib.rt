// The curve of the held blocks: gathered, prepared, counted and written.
#![tactic(auto)]

ghost use Rattle.std.specs.Prelude.{◌≡◌, [], ℕ, ◌+◌, ◌*◌, ◌-◌, ◌≤◌, ◌<◌, length, get_or};
ghost use Rattle.floats.specs.Lists.{upto, filled, flatten, spliced};
ghost use Rattle.layout.specs.Layout.{axis_codes};
ghost use Rattle.row_cells.specs.Codes.{geometric_of};
ghost use Rattle.row_cells.specs.Row.{shown};
ghost use Rattle.spline_channels.specs.Channels.{block_at};
ghost use Rattle.curve_walk.specs.Walks.{encode};
ghost use Rattle.curve_drawing.specs.Runs.{drawn_runs};
ghost use Rattle.spline_curve.specs.Asks.{Holds, channel_count, Gathered, Curved, Drawn, Recalled};
ghost use Rattle.curve_runs.specs.Asks.{Controls};

use curve_drawing::Drawing;
use curve_runs::runs::{count_runs, prepare, write_runs};
use curve_walk::{Form, Kept};
use spline_adding::channels_of;
use spline_gather::points_of;
use spline_job::{Curve, Job};
use spline_metric::metric_of;

// Gathers the channels, the metric's places, the points and the weights of the held blocks.
pub fn gather_curve(
    job: Job,
    axes: &[u64],
    words: &[u64],
    store: &[u64],
    chans: &mut [u64],
    ms: &mut [usize],
    pts: &mut [f64],
    ws: &mut [f64],
) -> Curve
    requires holds { Holds axes.now words.now store.now job.held }
    requires axis_codes_in_bounds { (axis_codes ≤ length chans.old) × (axis_codes ≤ length ms.old) }
    requires held_in_bounds { ((job.held + 1) * channel_count axes.now store.now job.held ≤ length pts.old) × (job.held + 1 ≤ length ws.old) }
    ensures { Gathered
        (geometric_of axes.now) (shown job.start words.now) (upto (block_at store.now) job.held)
        result chans.new ms.new pts.new ws.new }
{
    let held = job.held;
    let ch = channels_of(axes, store, held, chans);
    let metric = metric_of(&chans[..ch], ms);
    let n = points_of(axes, job.start, words, store, held, &chans[..ch], pts, ws);
    Curve { ch, metric, n }
}

// Fills the tables of a curve, where there are two points for one.
pub fn prepare_curve(
    d: Drawing,
    ms: &[usize],
    pts: &[f64],
    ws: &[f64],
    ks: &mut [f64],
    cs: &mut [f64],
) -> Form
    requires curved { Curved d ms.now pts.now ws.now }
    requires n_in_bounds { (2 * d.n ≤ length ks.old) × Controls d.n d.ch cs.old }
    ensures { Drawn d result ms.now pts.now ws.now ks.new cs.new }
{
    let n = d.n;
    if n < 2 {
        return Form::Fit(Kept {
            points: 0,
            piece: 0,
        });
    }
    prepare(d, ms, pts, ws, ks, cs)
}

// Counts the samples of each point after the start, and remembers the halvings for the writing.
pub fn count_curve(
    d: Drawing,
    form: Form,
    ms: &[usize],
    pts: &[f64],
    ws: &[f64],
    ks: &[f64],
    cs: &[f64],
    counts: &mut [usize],
    lefts: &mut [u8],
)
    requires drawn { Drawn d form ms.now pts.now ws.now ks.now cs.now }
    requires n_in_bounds { d.n - 1 ≤ length counts.old }
    ensures counts_after { counts.new
        ≡ filled (λ (i : ℕ). length (get_or (drawn_runs d ms.now pts.now ws.now) i [])) (d.n - 1) counts.old }
    ensures recalled { Recalled d form ms.now pts.now ks.now cs.now lefts.new }
{
    let n = d.n;
    if n < 2 {
        return;
    }
    count_runs(d, form, ms, pts, ws, ks, cs, counts, lefts);
}

// Writes the samples of the curve, one after another.
pub fn write_curve(
    d: Drawing,
    form: Form,
    ms: &[usize],
    pts: &[f64],
    ws: &[f64],
    ks: &[f64],
    cs: &[f64],
    lefts: &[u8],
    out: &mut [u64],
)
    requires drawn { Drawn d form ms.now pts.now ws.now ks.now cs.now }
    requires recalled { Recalled d form ms.now pts.now ks.now cs.now lefts.now }
    requires ws_in_bounds { length (encode (flatten (drawn_runs d ms.now pts.now ws.now))) ≤ length out.old }
    ensures { out.new
        ≡ spliced out.old 0 (encode (flatten (drawn_runs d ms.now pts.now ws.now))) }
{
    let n = d.n;
    if n < 2 {
        return;
    }
    write_runs(d, form, ms, pts, ws, ks, cs, lefts, out);
}
