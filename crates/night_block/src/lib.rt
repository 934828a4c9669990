// A line of row text as a block of a night: its row with a carry, by which the first row of its group is told from the others.
#![tactic(auto)]

ghost use Rattle.std.specs.Prelude.{◌≡◌, length};
ghost use Rattle.std.proofs.Math.Option.{get_or};
ghost use Rattle.floats.specs.Lists.{is_some};
ghost use Rattle.layout.specs.Layout.{row_words};
ghost use Rattle.night_block.specs.Block.{read_block};

use layout::R_CARRY;

// The carry of every block.
const BLOCK_CARRY: u64 = 1;

// The row that the text of a line, without its CRLF, is, into row; where it is none, row stays.
pub fn read_block(text: &[u8], row: &mut [u64]) -> bool
    requires { length row.old ≡ row_words }
    ensures { (result ≡ is_some (read_block text.now)) × (row.new ≡ get_or (read_block text.now) row.old) }
{
    if csv_read::read_row(text, row) {
        row[R_CARRY] = BLOCK_CARRY;
        return true;
    }
    false
}
