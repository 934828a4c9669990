// A planned emission, written: its samples, then its rows.
#![tactic(auto)]

ghost use Rattle.std.specs.Prelude.{◌≡◌, ◌*◌, ◌-◌, ◌≤◌, length};
ghost use Rattle.floats.specs.Lists.{upto, flatten, spliced};
ghost use Rattle.layout.specs.Layout.{row_words};
ghost use Rattle.row_cells.specs.Codes.{geometric_of};
ghost use Rattle.spline_channels.specs.Channels.{block_at};
ghost use Rattle.spline_rows.specs.Puts.{Spreads};
ghost use Rattle.spline_rows.specs.RawBlocks.{held_words};
ghost use Rattle.spline_plan.specs.Plans.{places_of, frame_of};
ghost use Rattle.spline_write.specs.Emits.{Plans, EmittedAs};

use layout::AXIS_CODES;
use motion::is_basis;
use row_axes::axes_mask;
use row_room::has_room;
use spline_curve::write_curve;
use spline_places::frame::{Frame, places_of};
use spline_places::place::Place;
use spline_plan::Emission;
use spline_rows::spread;

// Spreads the samples, which stand from the first word of `rows` on, to the rows of the held blocks.
fn spread_curve(
    axes: &[u64],
    chans: &[u64],
    basis: bool,
    points: usize,
    counts: &[usize],
    store: &[u64],
    held: usize,
    place: Place,
    rows: &mut [u64],
)
    requires spreads { Spreads (frame_of axes.now chans.now basis points)
        (geometric_of axes.now) (places_of chans.now) counts.now (block_at store.now) held place rows.old }
    requires row_words_in_bounds { held * row_words ≤ length store.now }
    ensures { rows.new ≡ spliced rows.old 0 (flatten (upto (held_words
        (frame_of axes.now chans.now basis points) (geometric_of axes.now)
        (places_of chans.now) counts.now (block_at store.now) rows.old) held)) }
{
    let mut places = [0usize; AXIS_CODES];
    places_of(chans, &mut places);
    let frame = Frame {
        axes: axes_mask(axes),
        mask: axes_mask(chans),
        ch: chans.len(),
        basis,
        points,
    };
    spread(frame, axes, &places, counts, store, held, place, rows);
}

// Writes a planned emission from the first word of `rows` on, where its rows and those behind it have room; returns their
// number.
pub fn write_emission(
    e: Emission,
    axes: &[u64],
    store: &[u64],
    rows: &mut [u64],
    pts: &[f64],
    ws: &[f64],
    ks: &[f64],
    cs: &[f64],
    counts: &[usize],
    lefts: &[u8],
) -> u64
    requires { Plans axes.now store.now e pts.now ws.now ks.now cs.now counts.now lefts.now }
    ensures { EmittedAs axes.now store.now e
        pts.now ws.now ks.now cs.now counts.now lefts.now
        rows.old result rows.new }
{
    let job = e.job;
    let curve = e.curve;
    let drawing = e.drawing;
    let form = e.form;
    let place = e.place;
    let count = place.rows;
    if !has_room(rows, count + job.own) {
        return count as u64;
    }
    let chans = e.chans;
    let ms = e.ms;
    let m = curve.metric;
    let ch = curve.ch;
    let n = curve.n;
    write_curve(drawing, form, &ms[..m], pts, ws, ks, cs, lefts, rows);
    let kind = drawing.kind;
    let basis = is_basis(kind);
    spread_curve(
        axes,
        &chans[..ch],
        basis,
        n - 1,
        counts,
        store,
        job.held,
        place,
        rows,
    );
    count as u64
}
