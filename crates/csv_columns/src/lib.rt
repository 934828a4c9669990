// The columns of cells, and the cell that each stands for.
#![tactic(auto)]

ghost use Rattle.std.specs.Prelude.{◌≡◌, ◌<◌};
ghost use Rattle.layout.specs.Layout.{cells};
ghost use Rattle.csv_line.specs.LineText.{column_count, code_at};

use layout::{AXIS_CODES, C_CR, C_OFFSET, C_PW, C_SD, C_TURN};

// The columns of cells, behind the line number and the two words; and those before I, and before F.
pub const COLUMNS: usize = 11;

pub const I_COLUMN: usize = 3;

pub const F_COLUMN: usize = 10;

// The bits of a code, and what it is below.
const CODE_BITS: usize = 5;

const ROOM: usize = 1 << CODE_BITS;

// The codes of the cells by columns, the first one lowest: F, SD PW TURN CR, then K J I, then Z Y X. A number from which one is
// shifted out, and not a table or tests of the column, since it is asked for each cell that is read or written.
const LAST_CODES: usize = (((((AXIS_CODES + 1) * ROOM + C_SD) * ROOM + C_PW) * ROOM + C_TURN)
    * ROOM)
    + C_CR;

const LATER_CODES: usize = (((LAST_CODES * ROOM + C_OFFSET + 2) * ROOM + C_OFFSET + 1) * ROOM)
    + C_OFFSET;

const CODES: usize = ((LATER_CODES * ROOM + 2) * ROOM + 1) * ROOM;

// The code of the cell in column i: X Y Z, I J K CR TURN PW SD, F.
pub fn code_at(i: usize) -> usize
    requires { i < column_count }
    ensures { (result ≡ code_at i) × (result < cells) }
{
    let d = CODE_BITS * i;
    (CODES >> d) % ROOM
}
