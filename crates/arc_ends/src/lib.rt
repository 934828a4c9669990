// An arc block's numbers: its cells, its ends, its centre.
#![tactic(auto)]

ghost use Rattle.std.specs.Prelude.{◌≡◌, ◌<◌, ◌≤◌, length};
ghost use Rattle.std.proofs.Math.Option.{get_or};
ghost use Rattle.floats.specs.Numbers.{num};
ghost use Rattle.layout.specs.Layout.{axis_codes, cells, row_words};
ghost use Rattle.row_cells.specs.Row.{cell, number};
ghost use Rattle.arc_centre.specs.Types.{centre_is, number_is, ends_is};
ghost use Rattle.arc_block.specs.Block.{ends_at, centre_at};

use layout::R_PRESENT;

pub fn cell_number(row: &[u64], k: usize) -> Option<f64>
    requires { (length row.now ≡ row_words) × (k < cells) }
    ensures { number_is result ≡ number row.now k }
{
    if row_cells::has_bit(row[R_PRESENT], k as u64) {
        return Some(floats::of_bits(row[layout::R_CELLS + k]));
    }
    None
}

// The programmed end on axis k, or the start where none is programmed.
fn end_on(row: &[u64], k: usize, start: u64) -> f64
    requires { (length row.now ≡ row_words) × (k < cells) }
    ensures { result ≡ num (get_or (cell row.now k) start) }
{
    if row_cells::has_bit(row[R_PRESENT], k as u64) {
        return floats::of_bits(row[layout::R_CELLS + k]);
    }
    floats::of_bits(start)
}

pub fn ends(row: &[u64], at: &[u64], u: usize, v: usize) -> arc_centre::Ends
    requires { (length row.now ≡ row_words) × ((axis_codes ≤ length at.now) × ((u < axis_codes) × (v < axis_codes))) }
    ensures { ends_is result ≡ ends_at row.now at.now u v }
{
    let su = at[u];
    let sv = at[v];
    arc_centre::Ends {
        su: floats::of_bits(su),
        sv: floats::of_bits(sv),
        eu: end_on(row, u, su),
        ev: end_on(row, v, sv),
    }
}

// The centre of an arc block, by its offsets or CR.
pub fn seek_centre(
    row: &[u64],
    cw: bool,
    e: arc_centre::Ends,
    u: usize,
    v: usize,
) -> Result<arc_centre::Centre, arc_centre::Fault>
    requires { (length row.now ≡ row_words) × ((u < 3) × (v < 3)) }
    ensures { centre_is result ≡ centre_at cw (ends_is e) u v row.now }
{
    let i = cell_number(row, layout::C_OFFSET + u);
    let j = cell_number(row, layout::C_OFFSET + v);
    let cr = cell_number(row, layout::C_CR);
    arc_found::find_centre(cw, e, i, j, cr)
}
