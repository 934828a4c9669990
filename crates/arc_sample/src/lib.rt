// The rows of an arc: samples along it, and its programmed end.
#![tactic(auto)]

ghost use Rattle.std.specs.Prelude.{◌≡◌, ◌+◌, ◌-◌, ◌*◌, ◌≤◌, length};
ghost use Rattle.floats.specs.Lists.{spliced};
ghost use Rattle.layout.specs.Layout.{row_words};
ghost use Rattle.arc_centre.specs.Types.{ends_is};
ghost use Rattle.arc_numbers.specs.Types.{arc_is};
ghost use Rattle.arc_made.specs.Drawn.{mids, DrawingOf, Ramps};
ghost use Rattle.arc_sample.specs.Rowing.{Rowing};
ghost use Rattle.arc_sample.specs.Asks.{DrawOf, setting_rows};

use arc_made::Drawing;

// What an arc block is drawn in: the mask of the geometric axes, the plane's word, the mask of the positions at hand.
#[derive(Clone, Copy)]
pub struct Setting {
    pub gs: u64,
    pub plane: u64,
    pub known: u64,
}

// The rows before the last of n, and where they end.
fn put_mid_rows(
    rows: &mut [u64],
    at: usize,
    row: &[u64],
    d: Drawing,
    starts: &[f64],
    spans: &[f64],
    n: usize,
) -> usize
    requires drawing_of { DrawingOf row.now d × Ramps starts.now spans.now }
    requires le_n { (1 ≤ n) × (at + n * row_words ≤ length rows.old) }
    ensures { Rowing (mids d row.now starts.now spans.now n) at (n - 1) rows.old rows.new result }
{
    let whole = std::num::nearest_u64_to_f64(n as u64);
    let mut place = at;
    for j in 0..n - 1 {
        arc_made::put_mid_row(rows, place, row, d, starts, spans, j + 1, whole);
        place += layout::ROW_WORDS;
    }
    place
}

// The n rows of the arc c from e's start to its end.
pub fn draw(
    rows: &mut [u64],
    from: usize,
    row: &[u64],
    at: &[u64],
    f: Setting,
    e: arc_centre::Ends,
    c: arc_numbers::Arc,
    n: usize,
)
    requires { DrawOf rows.old from row.now f.gs at.now n }
    ensures { rows.new ≡ spliced rows.old from (setting_rows f at.now row.now (ends_is e) (arc_is c) n) }
{
    let u = arc_words::plane_u(f.plane);
    let v = arc_words::plane_v(f.plane);
    let mask = arc_words::drawn_axes(row, f.gs, u, v);
    let mut starts = [0.0; layout::AXIS_CODES];
    arc_words::put_starts(&mut starts, row, f.known, at);
    let mut spans = [0.0; layout::AXIS_CODES];
    arc_words::put_spans(&mut spans, row, &starts);
    let d = Drawing {
        gs: f.gs,
        mask,
        u,
        v,
        c,
    };
    let place = put_mid_rows(rows, from, row, d, &starts, &spans, n);
    arc_made::put_last_row(rows, place, row, d, n == 1, e);
}
