// One row of an arc: at a sample, or at the programmed end.
#![tactic(auto)]

ghost use Rattle.std.specs.Prelude.{◌≡◌, ◌+◌, ◌≤◌, length};
ghost use Rattle.floats.specs.Lists.{spliced};
ghost use Rattle.layout.specs.Layout.{row_words};
ghost use Rattle.arc_centre.specs.Types.{ends_is};
ghost use Rattle.arc_made.specs.Drawn.{mid, last, DrawingOf, Ramps};

use motion::G1;

// What every row of an arc takes: the geometric axes, the axes that the rows have, the two of the plane, the arc.
#[derive(Clone, Copy)]
pub struct Drawing {
    pub gs: u64,
    pub mask: u64,
    pub u: usize,
    pub v: usize,
    pub c: arc_numbers::Arc,
}

// Row k of n, not the last.
pub fn put_mid_row(
    rows: &mut [u64],
    place: usize,
    row: &[u64],
    d: Drawing,
    starts: &[f64],
    spans: &[f64],
    k: usize,
    n: f64,
)
    requires drawing_of { DrawingOf row.now d × Ramps starts.now spans.now }
    requires row_words_in_bounds { place + row_words ≤ length rows.old }
    ensures { rows.new ≡ spliced rows.old place (mid d row.now starts.now spans.now n k) }
{
    let f = std::num::nearest_u64_to_f64(k as u64) / n;
    let c = d.c;
    let mut words = [0u64; layout::AXIS_CODES];
    arc_words::put_sample(&mut words, c, d.u, d.v, starts, spans, f);
    let made = row_made::Made {
        axes: d.gs,
        mask: d.mask,
        first: k == 1,
        motion: G1,
        marked: true,
    };
    row_make::put_made(rows, place, row, made, &words);
}

pub fn put_last_row(
    rows: &mut [u64],
    place: usize,
    row: &[u64],
    d: Drawing,
    first: bool,
    e: arc_centre::Ends,
)
    requires drawing_of { DrawingOf row.now d }
    requires row_words_in_bounds { place + row_words ≤ length rows.old }
    ensures { rows.new ≡ spliced rows.old place (last d row.now (ends_is e) first) }
{
    let mut words = [0u64; layout::AXIS_CODES];
    arc_last::put_last(&mut words, row, e, d.u, d.v);
    let made = row_made::Made {
        axes: d.gs,
        mask: d.mask,
        first: first,
        motion: G1,
        marked: false,
    };
    row_make::put_made(rows, place, row, made, &words);
}
