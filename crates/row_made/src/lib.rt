// What rides along in a made row, and the words before its cells.
#![tactic(auto)]

ghost use Rattle.std.specs.Prelude.{◌≡◌, cond, ◌<◌, length};
ghost use Rattle.std.specs.Int.Bits.{bit_and};
ghost use Rattle.layout.specs.Layout.{axis_masks, cells, row_words};
ghost use Rattle.row_cells.specs.Bits.{mask_sum};
ghost use Rattle.row_cells.specs.Row.{present_of, axes_of};
ghost use Rattle.row_lay.specs.Asks.{head_words};
ghost use Rattle.row_made.specs.Made.{made_has, riders};
ghost use Rattle.row_made.specs.Asks.{made_head};

use layout::{LIST_MASKS, R_CARRY, R_LINE, R_PLANE, R_PRESENT};
use row_lay::Head;

// What a row is made of beside a block's row and the point's words: the masks of the geometric axes and of the point,
// whether it is the group's first, which has the motion, and whether it is marked.
#[derive(Clone, Copy)]
pub struct Made {
    pub axes: u64,
    pub mask: u64,
    pub first: bool,
    pub motion: u64,
    pub marked: bool,
}

// The codes that ride on the first row of a group, as the block has them: not its geometric axes, of the mask gs.
pub fn ridden(row: &[u64], gs: u64) -> u64
    requires { (length row.now ≡ row_words) × (gs < axis_masks) }
    ensures { result ≡ bit_and (present_of row.now) (riders gs) }
{
    row[R_PRESENT] & (LIST_MASKS - 1 - gs)
}

// The presence mask of a made row: what rides on the first, and the point's own axes.
fn made_mask(row: &[u64], gs: u64, first: bool, mask: u64) -> u64
    requires { (length row.now ≡ row_words) × ((gs < axis_masks) × (mask < axis_masks)) }
    ensures { result ≡ mask_sum (made_has (axes_of gs) row.now first mask) cells }
{
    if first {
        return ridden(row, gs) | (mask & gs);
    }
    mask
}

fn if_first(first: bool, x: u64) -> u64
    ensures { result ≡ cond first x 0 }
{
    if first { x } else { 0 }
}

pub fn made_head(row: &[u64], made: Made) -> Head
    requires { (length row.now ≡ row_words) × ((made.axes < axis_masks) × (made.mask < axis_masks)) }
    ensures { head_words result ≡ made_head row.now made }
{
    let present = made_mask(row, made.axes, made.first, made.mask);
    let line = row[R_LINE];
    Head {
        line: line,
        motion: if_first(made.first, made.motion),
        plane: if_first(made.first, row[R_PLANE]),
        mark: if_first(made.marked, 1),
        carry: if_first(made.first, row[R_CARRY]),
        present: present,
    }
}
