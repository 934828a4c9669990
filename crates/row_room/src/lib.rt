// Whether rows have room.
#![tactic(auto)]

ghost use Rattle.std.specs.Prelude.{◌≡◌};
ghost use Rattle.row_room.specs.Room.{has_room};

use layout::ROW_WORDS;

// Whether n rows have room. It is judged here alone: for an emission and the block after it, and for all rows of a call.
pub fn has_room(rows: &[u64], n: usize) -> bool
    ensures { result ≡ has_room n rows.now }
{
    n <= rows.len() / ROW_WORDS
}
