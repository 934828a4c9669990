// One point of a spline: its values, each its own or the last, and its weight.
#![tactic(auto)]

ghost use Rattle.std.specs.Prelude.{◌≡◌, ◌+◌, ◌≤◌, ◌<◌, length};
ghost use Rattle.std.proofs.Math.Option.{get_or};
ghost use Rattle.layout.specs.Layout.{row_words, cells};
ghost use Rattle.row_cells.specs.Row.{number};
ghost use Rattle.spline_points.specs.Points.{weight_of};
ghost use Rattle.spline_channels.specs.Gathers.{Codes};
ghost use Rattle.spline_points.specs.Gathers.{NextPut};

use floats::of_bits;
use layout::{C_PW, R_CELLS, R_PRESENT};
use row_cells::has_bit;

// Where the row moves axis k, which was at `old`.
pub fn next_value(row: &[u64], k: u64, old: f64) -> f64
    requires { (length row.now ≡ row_words) × (k < cells) }
    ensures { result ≡ get_or (number row.now k) old }
{
    if has_bit(row[R_PRESENT], k) {
        return of_bits(row[R_CELLS + k as usize]);
    }
    old
}

// Writes, at `at`, the point of the row, which follows the point that stands before it.
pub fn next_point(row: &[u64], chans: &[u64], pts: &mut [f64], at: usize)
    requires row_len { (length row.now ≡ row_words) × (Codes chans.now) }
    requires chans_len_bound { (length chans.now ≤ at) × (at + length chans.now ≤ length pts.old) }
    ensures { NextPut chans.now row.now at pts.old pts.new }
{
    let before = at - chans.len();
    for (c, k) in chans.iter().enumerate() {
        pts[at + c] = next_value(row, *k, pts[before + c]);
    }
}

// The weight of the row's point: PW, at least 1e-4, or 1.
pub fn weight_of(row: &[u64]) -> f64
    requires { length row.now ≡ row_words }
    ensures { result ≡ weight_of row.now }
{
    let w = next_value(row, C_PW as u64, 1.0);
    if w < 1e-4 { 1e-4 } else { w }
}
