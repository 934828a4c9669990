// How far an emission has come: the rows, the samples and the point blocks that lie before a block.
ghost use Rattle.std.specs.Prelude.{◌≡◌, ◌*◌, ◌≤◌, ◌<◌, length};
ghost use Rattle.layout.specs.Layout.{row_words, most_held};
ghost use Rattle.row_cells.specs.Codes.{geometric_of};
ghost use Rattle.spline_channels.specs.Channels.{block_at};
ghost use Rattle.spline_places.specs.Sizes.{size_of, moved, unmoved, place_to};
ghost use Rattle.spline_places.specs.Places.{most_rows, Few, Behind};

use spline_channels::{block, has_point};

#[derive(Clone, Copy)]
pub struct Place {
    pub rows: usize,
    pub samples: usize,
    pub points: usize,
}

// The rows of a point block with c samples.
fn size_of(c: usize) -> usize
    ensures { result ≡ size_of c }
{
    if c == 0 { 1 } else { c }
}

// The place after a block.
fn after_block(point: bool, counts: &[usize], place: Place) -> Place
    requires points_in_bounds { (place.points < length counts.now) × (Few counts.now) }
    requires rows_le_most_rows { (place.rows ≤ most_rows) × (place.samples ≤ most_rows) }
    ensures { result ≡ moved point counts.now place }
{
    if !point {
        return Place {
            rows: place.rows + 1,
            samples: place.samples,
            points: place.points,
        };
    }
    let j = place.points;
    let c = counts[j];
    Place {
        rows: place.rows + size_of(c),
        samples: place.samples + c,
        points: j + 1,
    }
}

// The place before a block, from the place after it.
pub fn before_block(point: bool, counts: &[usize], place: Place) -> Place
    requires { Behind point counts.now place }
    ensures { result ≡ unmoved point counts.now place }
{
    if !point {
        return Place {
            rows: place.rows - 1,
            samples: place.samples,
            points: place.points,
        };
    }
    let j = place.points - 1;
    let c = counts[j];
    Place {
        rows: place.rows - size_of(c),
        samples: place.samples - c,
        points: j,
    }
}

// The place after all held blocks.
pub fn total(axes: &[u64], store: &[u64], held: usize, counts: &[usize]) -> Place
    requires row_words_in_bounds { (held * row_words ≤ length store.now) × ((held ≤ most_held) × (held ≤ length counts.now)) }
    requires few { Few counts.now }
    ensures { result ≡ place_to (geometric_of axes.now) counts.now (block_at store.now) held }
{
    let mut place = Place {
        rows: 0,
        samples: 0,
        points: 0,
    };
    for i in 0..held {
        place = after_block(has_point(axes, block(store, i)), counts, place);
    }
    place
}
