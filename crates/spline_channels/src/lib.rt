// The held rows of a spline: whether one has a point, and the place of a code among the channels.
#![tactic(auto)]

ghost use Rattle.std.specs.Prelude.{◌≡◌, ◌&&◌, ◌+◌, ◌*◌, ◌≤◌, ltb, length};
ghost use Rattle.floats.specs.Lists.{member};
ghost use Rattle.layout.specs.Layout.{row_words, axis_codes};
ghost use Rattle.row_cells.specs.Codes.{geometric_of};
ghost use Rattle.row_cells.specs.Bits.{has};
ghost use Rattle.row_cells.specs.Row.{has_point};
ghost use Rattle.spline_channels.specs.Channels.{place_of, block_at};

use layout::{AXIS_CODES, R_PRESENT, ROW_WORDS};
use row_cells::has_bit;

// The row held at place i.
pub fn block(store: &[u64], i: usize) -> &[u64]
    requires { i * row_words + row_words ≤ length store.now }
    ensures { result.now ≡ block_at store.now i }
{
    let a = i * ROW_WORDS;
    let e = a + ROW_WORDS;
    &store[a..e]
}

// Whether code k is a geometric axis whose cell is present.
pub fn programs(present: u64, k: u64) -> bool
    ensures { result ≡ ltb k axis_codes && has present k }
{
    k < AXIS_CODES as u64 && has_bit(present, k)
}

// Whether the row has a point: some geometric axis of the list is programmed.
pub fn has_point(axes: &[u64], row: &[u64]) -> bool
    requires { length row.now ≡ row_words }
    ensures { result ≡ has_point (geometric_of axes.now) row.now }
{
    let present = row[R_PRESENT];
    axes.iter().any(|k| programs(present, *k))
}

// The place of code k in a list, the list's length where it is not there.
pub fn place_of(codes: &[u64], k: u64) -> usize
    ensures { result ≡ place_of k codes.now }
{
    codes
        .iter()
        .position(|code| *code == k)
        .unwrap_or(codes.len())
}

pub fn is_listed(codes: &[u64], k: u64) -> bool
    ensures { result ≡ member k codes.now }
{
    codes.contains(&k)
}
