// An emission before its first row is written: gathered, prepared and counted.
#![tactic(auto)]

ghost use Rattle.std.specs.Prelude.{◌≡◌, [], ℕ, ◌*◌, ◌-◌, ◌≤◌, length, get_or};
ghost use Rattle.floats.specs.Lists.{filled};
ghost use Rattle.curve_drawing.specs.Runs.{drawn_runs};
ghost use Rattle.spline_curve.specs.Asks.{Holds, channel_count, Curved, Drawn, Recalled};
ghost use Rattle.curve_runs.specs.Asks.{Controls};
ghost use Rattle.spline_plan.specs.Plans.{Rooms, Planned};

use curve_drawing::Drawing;
use curve_walk::Form;
use layout::AXIS_CODES;
use spline_curve::{count_curve, gather_curve, prepare_curve};
use spline_job::{Curve, Job, drawing_of};
use spline_places::place::{Place, total};

// What is known of an emission before its first row is written: the curve, what its tables hold, and all rows.
#[derive(Clone, Copy)]
pub struct Emission {
    pub job: Job,
    pub curve: Curve,
    pub drawing: Drawing,
    pub form: Form,
    pub place: Place,
    pub chans: [u64; AXIS_CODES],
    pub ms: [usize; AXIS_CODES],
}

// Fills the tables of a curve, and counts its samples with them.
fn tabulate(
    d: Drawing,
    ms: &[usize],
    pts: &[f64],
    ws: &[f64],
    ks: &mut [f64],
    cs: &mut [f64],
    counts: &mut [usize],
    lefts: &mut [u8],
) -> Form
    requires curved { Curved d ms.now pts.now ws.now }
    requires n_in_bounds { (2 * d.n ≤ length ks.old) × Controls d.n d.ch cs.old }
    requires n_in_bounds_2 { d.n - 1 ≤ length counts.old }
    ensures drawn { Drawn d result ms.now pts.now ws.now ks.new cs.new }
    ensures counts_after { counts.new
        ≡ filled (λ (i : ℕ). length (get_or (drawn_runs d ms.now pts.now ws.now) i [])) (d.n - 1) counts.old }
    ensures recalled { Recalled d result ms.now pts.now ks.new cs.new lefts.new }
{
    let form = prepare_curve(d, ms, pts, ws, ks, cs);
    count_curve(d, form, ms, pts, ws, ks, cs, counts, lefts);
    form
}

// Gathers the held blocks, prepares their curve and counts: the samples of each point block go to `counts`.
pub fn plan_emission(
    job: Job,
    axes: &[u64],
    words: &[u64],
    store: &[u64],
    pts: &mut [f64],
    ws: &mut [f64],
    ks: &mut [f64],
    cs: &mut [f64],
    counts: &mut [usize],
    lefts: &mut [u8],
) -> Emission
    requires holds { Holds axes.now words.now store.now job.held }
    requires rooms { Rooms job.held (channel_count axes.now store.now job.held) pts.old ws.old ks.old cs.old counts.old }
    ensures { (result.job ≡ job) × Planned axes.now words.now store.now result
        pts.new ws.new ks.new cs.new counts.new lefts.new }
{
    let mut chans = [0u64; AXIS_CODES];
    let mut ms = [0usize; AXIS_CODES];
    let curve = gather_curve(job, axes, words, store, &mut chans, &mut ms, pts, ws);
    let drawing = drawing_of(job, curve);
    let form = tabulate(drawing, &ms[..curve.metric], pts, ws, ks, cs, counts, lefts);
    let place = total(axes, store, job.held, counts);
    Emission {
        job,
        curve,
        drawing,
        form,
        place,
        chans,
        ms,
    }
}
