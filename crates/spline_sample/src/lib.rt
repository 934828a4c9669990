// One row of a held block: of a sample, or of the block alone.
#![tactic(auto)]

ghost use Rattle.std.specs.Prelude.{◌≡◌, ◌+◌, ◌*◌, ◌≤◌, ◌<◌, length, replicate};
ghost use Rattle.floats.specs.Lists.{filled};
ghost use Rattle.layout.specs.Layout.{axis_codes, axis_masks, row_words};
ghost use Rattle.spline_sample.specs.Raw.{raw_word};
ghost use Rattle.spline_sample.specs.Puts.{Sample, Puts, OwnMask, RowPut, BarePut};

use layout::{AXIS_CODES, R_CELLS, R_PRESENT, ROW_WORDS};
use row_cells::has_bit;
use row_made::Made;
use row_make::put_made;
use spline_marks::{is_marked, motion_of};
use spline_places::frame::Frame;
use spline_places::place::Place;

// The word of axis k in the sample that begins at word `from`, zero where k is no channel.
fn sample_word(rows: &[u64], from: usize, mask: u64, places: &[usize], k: usize) -> u64
    requires { Sample rows.now from mask places.now × (k < axis_codes) }
    ensures { result ≡ raw_word mask places.now rows.now from k }
{
    if has_bit(mask, k as u64) {
        rows[from + places[k]]
    } else {
        0
    }
}

// The words of that sample, each at its axis.
fn sample_words(rows: &[u64], from: usize, mask: u64, places: &[usize]) -> [u64; AXIS_CODES]
    requires { Sample rows.now from mask places.now }
    ensures { result ≡ filled (raw_word mask places.now rows.now from) axis_codes (replicate axis_codes 0) }
{
    let mut words = [0u64; AXIS_CODES];
    for (k, word) in words.iter_mut().enumerate() {
        *word = sample_word(rows, from, mask, places, k);
    }
    words
}

// Writes row t of the block at `place`, of its sample t.
pub fn put_sample(
    o: Frame,
    places: &[usize],
    place: Place,
    c: usize,
    row: &[u64],
    t: usize,
    rows: &mut [u64],
)
    requires { Puts o places.now place c row.now rows.old × (t < c) }
    ensures { RowPut o places.now place c row.now t rows.old rows.new }
{
    let words = sample_words(rows, (place.samples + t) * o.ch, o.mask, places);
    let made = Made {
        axes: o.axes,
        mask: o.mask,
        first: t == 0,
        motion: motion_of(place.points),
        marked: is_marked(o, place.points, c, t),
    };
    put_made(rows, (place.rows + t) * ROW_WORDS, row, made, &words);
}

// The mask of the axis cells that a block without samples keeps: its own, and a B-spline's block none.
fn own_mask(o: Frame, row: &[u64]) -> u64
    requires { (o.axes < axis_masks) × (length row.now ≡ row_words) }
    ensures { OwnMask o row.now result }
{
    if o.basis { 0 } else { o.axes & row[R_PRESENT] }
}

// Writes the one row of a block without samples.
pub fn put_bare(o: Frame, place: Place, row: &[u64], rows: &mut [u64])
    requires axes_lt_axis_masks { (o.axes < axis_masks) × (length row.now ≡ row_words) }
    requires row_words_in_bounds { place.rows * row_words + row_words ≤ length rows.old }
    ensures { BarePut o place row.now rows.old rows.new }
{
    let made = Made {
        axes: o.axes,
        mask: own_mask(o, row),
        first: true,
        motion: motion_of(place.points),
        marked: false,
    };
    put_made(rows, place.rows * ROW_WORDS, row, made, &row[R_CELLS..]);
}
