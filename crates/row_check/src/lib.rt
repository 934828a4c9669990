// What an incoming row is refused for: its shape, its numbers, its TURN.
#![tactic(auto)]

ghost use Rattle.std.specs.Prelude.{◌≡◌, length};
ghost use Rattle.layout.specs.Layout.{row_words};
ghost use Rattle.row_cells.specs.Codes.{plane_ok};
ghost use Rattle.refusal.specs.Codes.{code_of};
ghost use Rattle.row_check.specs.Check.{shape_ok, fields_ok, row_check};

use layout::{CELL_MASKS, LINE_NUMBERS, R_LINE, R_MARK, R_MOTION, R_PLANE, R_PRESENT, ROW_WORDS};
use motion::LAST_MOTION;
use refusal::Refusal;
use row_cells::{PLANE_XY, PLANE_YZ};
use row_numbers::{numbers_ok, turn_ok};

#[tactic(auto, unfolding(row_cells::specs::Codes::plane_ok))]
pub fn plane_ok(p: u64) -> bool
    ensures { result ≡ plane_ok p }
{
    p == 0 || (PLANE_XY <= p && p <= PLANE_YZ)
}

// Whether the words after a row's motion, before its cells, are in order.
fn fields_ok(row: &[u64]) -> bool
    requires { length row.now ≡ row_words }
    ensures { result ≡ fields_ok row.now }
{
    plane_ok(row[R_PLANE]) && row[R_MARK] == 0 && row[R_PRESENT] < CELL_MASKS
}

#[tactic(auto, unfolding(crate::specs::Check::shape_ok))]
pub fn shape_ok(row: &[u64]) -> bool
    ensures { result ≡ shape_ok row.now }
{
    row.len() == ROW_WORDS
        && row[R_LINE] < LINE_NUMBERS
        && row[R_MOTION] <= LAST_MOTION
        && fields_ok(row)
}

// The refusal that an incoming row is due.
#[tactic(auto, unfolding(crate::specs::Check::row_check, crate::specs::Check::shape_ok))]
pub fn check_row(row: &[u64]) -> Result<(), Refusal>
    ensures { code_of result ≡ row_check row.now }
{
    if !shape_ok(row) {
        return Err(Refusal::BadRow);
    }
    if !numbers_ok(row) {
        return Err(Refusal::BadNumber);
    }
    if !turn_ok(row) {
        return Err(Refusal::TooManyTurns);
    }
    Ok(())
}
