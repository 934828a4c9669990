// Rows written into their places, from the last to the first, so that no sample is written over before it is read.
#![tactic(auto)]

ghost use Rattle.std.specs.Prelude.{◌≡◌, ◌*◌, ◌≤◌, ◌<◌, length};
ghost use Rattle.layout.specs.Layout.{row_words};
ghost use Rattle.row_cells.specs.Codes.{geometric_of};
ghost use Rattle.row_cells.specs.Row.{has_point};
ghost use Rattle.spline_channels.specs.Channels.{block_at};
ghost use Rattle.spline_places.specs.Sizes.{samples_of, unmoved};
ghost use Rattle.spline_sample.specs.Puts.{Puts};
ghost use Rattle.spline_rows.specs.Puts.{RunPut, GroupPut, BlockPut, Blocks, HeldPut, Spreads, Laid};

use layout::ROW_WORDS;
use row_put::put_row;
use spline_channels::{block, has_point};
use spline_places::frame::Frame;
use spline_places::place::{Place, before_block};
use spline_sample::{put_bare, put_sample};

// Writes the rows of the c samples of the block at `place`.
fn put_run(o: Frame, places: &[usize], place: Place, c: usize, row: &[u64], rows: &mut [u64])
    requires { Puts o places.now place c row.now rows.old }
    ensures { RunPut o places.now place c row.now rows.old rows.new }
{
    for t in (0..c).rev() {
        put_sample(o, places, place, c, row, t, rows);
    }
}

// Writes the group of a point block with c samples.
fn put_point(o: Frame, places: &[usize], place: Place, c: usize, row: &[u64], rows: &mut [u64])
    requires { Puts o places.now place c row.now rows.old }
    ensures { GroupPut o places.now place c row.now rows.old rows.new }
{
    if c == 0 {
        put_bare(o, place, row, rows);
        return;
    }
    put_run(o, places, place, c, row, rows);
}

// Writes the group of a block.
fn put_block(
    o: Frame,
    places: &[usize],
    place: Place,
    c: usize,
    point: bool,
    row: &[u64],
    rows: &mut [u64],
)
    requires { Puts o places.now place c row.now rows.old }
    ensures { BlockPut o places.now point place c row.now rows.old rows.new }
{
    if point {
        put_point(o, places, place, c, row, rows);
        return;
    }
    put_row(rows, place.rows * ROW_WORDS, row);
}

// The samples of a block whose count would be counts[j].
fn samples_of(point: bool, counts: &[usize], j: usize) -> usize
    requires { j < length counts.now }
    ensures { result ≡ samples_of point counts.now j }
{
    if point { counts[j] } else { 0 }
}

// Writes the group of a block before `place`, and says where it begins.
fn spread_block(
    o: Frame,
    axes: &[u64],
    places: &[usize],
    counts: &[usize],
    row: &[u64],
    place: Place,
    rows: &mut [u64],
) -> Place
    requires { Blocks o (geometric_of axes.now) places.now counts.now row.now place rows.old }
    ensures value { result ≡ unmoved (has_point (geometric_of axes.now) row.now) counts.now place }
    ensures held_put { HeldPut o axes.now places.now counts.now row.now result rows.old rows.new }
{
    let point = has_point(axes, row);
    let before = before_block(point, counts, place);
    let c = samples_of(point, counts, before.points);
    put_block(o, places, before, c, point, row, rows);
    before
}

// Writes the groups of all held blocks over the samples, which stand from the first word of `rows` on.
pub fn spread(
    o: Frame,
    axes: &[u64],
    places: &[usize],
    counts: &[usize],
    store: &[u64],
    held: usize,
    total: Place,
    rows: &mut [u64],
)
    requires spreads { Spreads o (geometric_of axes.now) places.now counts.now (block_at store.now) held total rows.old }
    requires row_words_in_bounds { held * row_words ≤ length store.now }
    ensures { Laid o axes.now places.now counts.now store.now held rows.old rows.new }
{
    let mut place = total;
    for i in (0..held).rev() {
        place = spread_block(o, axes, places, counts, block(store, i), place, rows);
    }
}
