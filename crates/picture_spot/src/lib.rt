// Where the pen is on one axis, once a row has shown it.
#![tactic(auto)]

ghost use Rattle.std.specs.Prelude.{◌≡◌, ◌<◌, length};
ghost use Rattle.layout.specs.Layout.{row_words, cells};
ghost use Rattle.picture_spot.specs.Spot.{shows_code, spot_after, both_known};

use layout::{R_CELLS, R_PRESENT};
use picture_place::place_of;
use row_cells::has_bit;

pub fn shows(row: &[u64], code: usize) -> bool
    requires { (length row.now ≡ row_words) × (code < cells) }
    ensures { result ≡ shows_code row.now code }
{
    has_bit(row[R_PRESENT], code as u64)
}

// The pen's place on an axis behind a row: what the row shows, or what it was.
#[tactic(auto, unfolding(crate::specs::Spot::spot_after))]
pub fn spot_after(spot: Option<u64>, row: &[u64], code: usize) -> Option<u64>
    requires { (length row.now ≡ row_words) × (code < cells) }
    ensures { result ≡ spot_after spot row.now code }
{
    if shows(row, code) {
        Some(place_of(floats::of_bits(row[R_CELLS + code])))
    } else {
        spot
    }
}

pub fn both_known(across: Option<u64>, up: Option<u64>) -> bool
    ensures { result ≡ both_known across up }
{
    across.is_some() && up.is_some()
}
