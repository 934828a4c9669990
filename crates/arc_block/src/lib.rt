// What an arc block says: its cells, its ends in the plane, whether it is silent, the axes that it holds, its centre.
#![tactic(auto)]

ghost use Rattle.std.specs.Prelude.{◌≡◌, ◌<◌, length};
ghost use Rattle.layout.specs.Layout.{axis_codes, axis_masks, row_words};
ghost use Rattle.row_cells.specs.Row.{axes_of, has_point, present_of};
ghost use Rattle.row_cells.specs.Bits.{mask_sum};
ghost use Rattle.arc_block.specs.Block.{silent_at, holds};

use layout::{C_CR, C_OFFSET, R_PRESENT};
use row_cells::{has_bit, set_bit};

fn has_point(row: &[u64], gs: u64) -> bool
    requires { (length row.now ≡ row_words) × (gs < axis_masks) }
    ensures { result ≡ has_point (axes_of gs) row.now }
{
    gs & row[R_PRESENT] != 0
}

#[tactic(auto, unfolding(crate::specs::Block::silent_at))]
pub fn is_silent(row: &[u64], gs: u64, u: usize, v: usize) -> bool
    requires { (length row.now ≡ row_words) × ((gs < axis_masks) × ((u < 3) × (v < 3))) }
    ensures { result ≡ silent_at (axes_of gs) u v row.now }
{
    let present = row[R_PRESENT];
    !(has_point(row, gs)
        || has_bit(present, (C_OFFSET + u) as u64)
        || has_bit(present, (C_OFFSET + v) as u64)
        || has_bit(present, C_CR as u64))
}

// The axes that ramp with no start to ramp from: programmed, not known, and not the plane's.
pub fn held_axes(row: &[u64], gs: u64, known: u64, u: usize, v: usize) -> u64
    requires { (length row.now ≡ row_words) × ((gs < axis_masks) × ((u < axis_codes) × (v < axis_codes))) }
    ensures { result ≡ mask_sum (holds gs (present_of row.now) known u v) axis_codes }
{
    let started = set_bit(set_bit(known, u as u64), v as u64);
    gs & row[R_PRESENT] & !started
}
