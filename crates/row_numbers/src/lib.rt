// The numbers of an incoming row: whether those that are there are in range, and its TURN.
#![tactic(auto)]

ghost use Rattle.std.specs.Prelude.{◌≡◌, ◌&&◌, ◌<◌, length};
ghost use Rattle.layout.specs.Layout.{cell_masks, row_words};
ghost use Rattle.row_numbers.specs.RowNumbers.{within, above1000, numbers_ok, turn_ok};
ghost use Rattle.row_numbers.specs.MaskCheck.{mask_ok};

use layout::{C_TURN, CELL_MASKS, R_CELLS, R_PRESENT};
use row_cells::{has_bit, lowest_bit, other_bits};

// Numbers by their bits: those from the first on are negative; a thousand million; a thousand.
const SIGN_BIT: u64 = 0x8000_0000_0000_0000;

const MOST_NUMBER: u64 = 0x41CD_CD65_0000_0000;

const MOST_TURNS: u64 = 0x408F_4000_0000_0000;

// The mask of the cells X, Y and Z, and the masks of them are below the second.
const XYZ: u64 = 7;

const XYZ_MASKS: u64 = 8;

pub fn within_range(x: u64) -> bool
    ensures { result ≡ within x }
{
    x % SIGN_BIT <= MOST_NUMBER
}

fn is_above_1000(x: u64) -> bool
    ensures { result ≡ above1000 x }
{
    x < SIGN_BIT && MOST_TURNS < x
}

// Whether the cells of a mask are in range. No other cell is read.
fn cells_ok(row: &[u64], mask: u64) -> bool
    requires { (length row.now ≡ row_words) × (mask < cell_masks) }
    ensures { result ≡ mask_ok row.now mask }
{
    let mut rest = mask;
    // No `for`: the turns are the bits that are left, and the mask has few of them.
    while rest != 0 {
        if !within_range(row[R_CELLS + lowest_bit(rest)]) {
            return false;
        }
        rest = other_bits(rest);
    }
    true
}

fn three_within(x: u64, y: u64, z: u64) -> bool
    ensures { result ≡ (within x && (within y && within z)) }
{
    within_range(x) && within_range(y) && within_range(z)
}

// Whether the cells that are there are in range. An absent cell is not read. Most rows have X, Y and Z: they are tested
// with no walk over bits.
pub fn numbers_ok(row: &[u64]) -> bool
    requires { length row.now ≡ row_words }
    ensures { result ≡ numbers_ok row.now }
{
    let present = row[R_PRESENT] % CELL_MASKS;
    if present % XYZ_MASKS != XYZ {
        return cells_ok(row, present);
    }
    three_within(row[R_CELLS], row[R_CELLS + 1], row[R_CELLS + 2]) && cells_ok(row, present - XYZ)
}

pub fn turn_ok(row: &[u64]) -> bool
    requires { length row.now ≡ row_words }
    ensures { result ≡ turn_ok row.now }
{
    if has_bit(row[R_PRESENT], C_TURN as u64) {
        !is_above_1000(row[R_CELLS + C_TURN])
    } else {
        true
    }
}
