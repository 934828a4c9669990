// The points and weights of a held spline, gathered block by block.
#![tactic(auto)]

ghost use Rattle.std.specs.Prelude.{◌≡◌, ◌+◌, ◌*◌, ◌≤◌, ◌<◌, length};
ghost use Rattle.floats.specs.Numbers.{num};
ghost use Rattle.floats.specs.Lists.{upto};
ghost use Rattle.layout.specs.Layout.{row_words, axis_codes, most_held};
ghost use Rattle.row_cells.specs.Row.{shown};
ghost use Rattle.spline_points.specs.Points.{first_cell, start_value};
ghost use Rattle.spline_channels.specs.Channels.{block_at};
ghost use Rattle.spline_channels.specs.Gathers.{Codes};
ghost use Rattle.spline_points.specs.Gathers.{StartPut, PointPut, WeightPut, PointsPut, WeightsPut, Path};

use floats::of_bits;
use row_cells::has_bit;
use spline_channels::{block, has_point};
use spline_points::{next_point, next_value, weight_of};

// The value of axis k in the first held row that has it, zero where none has.
fn first_value(store: &[u64], held: usize, k: u64) -> f64
    requires { (held * row_words ≤ length store.now) × (k < axis_codes) }
    ensures { result ≡ num (first_cell k (upto (block_at store.now) held)) }
{
    let mut value: f64 = 0.0;
    for i in (0..held).rev() {
        value = next_value(block(store, i), k, value);
    }
    value
}

// Where axis k starts: at the curve's start, else at its first programmed value.
fn start_value(start: u64, words: &[u64], store: &[u64], held: usize, k: u64) -> f64
    requires { (axis_codes ≤ length words.now) × ((held * row_words ≤ length store.now) × (k < axis_codes)) }
    ensures { result ≡ start_value (shown start words.now) (upto (block_at store.now) held) k }
{
    if has_bit(start, k) {
        return of_bits(words[k as usize]);
    }
    first_value(store, held, k)
}

// Writes the start of each channel.
fn start_point(
    start: u64,
    words: &[u64],
    store: &[u64],
    held: usize,
    chans: &[u64],
    pts: &mut [f64],
)
    requires axis_codes_in_bounds { (axis_codes ≤ length words.now) × ((held * row_words ≤ length store.now) × (Codes chans.now)) }
    requires chans_in_bounds { length chans.now ≤ length pts.old }
    ensures { StartPut start words.now store.now held chans.now pts.old pts.new }
{
    for (c, k) in chans.iter().enumerate() {
        pts[c] = start_value(start, words, store, held, *k);
    }
}

// Writes the point and the weight of a row behind n others, where it has a point.
fn add_point(
    axes: &[u64],
    row: &[u64],
    chans: &[u64],
    pts: &mut [f64],
    ws: &mut [f64],
    n: usize,
) -> usize
    requires row_len { (length row.now ≡ row_words) × (Codes chans.now) }
    requires le_n { (1 ≤ n) × (((n + 1) * length chans.now ≤ length pts.old) × (n < length ws.old)) }
    ensures point_put { PointPut axes.now row.now chans.now n pts.old pts.new result }
    ensures weight_put { WeightPut axes.now row.now n ws.old ws.new result }
{
    if has_point(axes, row) {
        next_point(row, chans, pts, n * chans.len());
        ws[n] = weight_of(row);
        return n + 1;
    }
    n
}

// Writes the points and weights of the held rows behind the first.
fn add_points(
    axes: &[u64],
    store: &[u64],
    held: usize,
    chans: &[u64],
    pts: &mut [f64],
    ws: &mut [f64],
) -> usize
    requires row_words_in_bounds { (held * row_words ≤ length store.now) × ((held ≤ most_held) × (Codes chans.now)) }
    requires chans_len_bound { (length chans.now ≤ axis_codes) × (((held + 1) * length chans.now ≤ length pts.old) × (held + 1 ≤ length ws.old)) }
    ensures points_put { PointsPut axes.now store.now held chans.now pts.old pts.new result }
    ensures weights_put { WeightsPut axes.now store.now held ws.old ws.new result }
{
    let mut n: usize = 1;
    for i in 0..held {
        n = add_point(axes, block(store, i), chans, pts, ws, n);
    }
    n
}

// Writes the points of the curve and their weights, and says how many there are.
pub fn points_of(
    axes: &[u64],
    start: u64,
    words: &[u64],
    store: &[u64],
    held: usize,
    chans: &[u64],
    pts: &mut [f64],
    ws: &mut [f64],
) -> usize
    requires row_words_in_bounds { (held * row_words ≤ length store.now) × ((held ≤ most_held) × (Codes chans.now)) }
    requires chans_len_bound { (length chans.now ≤ axis_codes) × (((held + 1) * length chans.now ≤ length pts.old) × (held + 1 ≤ length ws.old)) }
    requires axis_codes_in_bounds { axis_codes ≤ length words.now }
    ensures { Path axes.now start words.now store.now held chans.now pts.new ws.new result }
{
    start_point(start, words, store, held, chans, pts);
    ws[0] = 1.0;
    add_points(axes, store, held, chans, pts, ws)
}
