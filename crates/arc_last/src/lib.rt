// The words of an arc's last row.
#![tactic(auto)]

ghost use Rattle.std.specs.Prelude.{◌≡◌, ◌<◌, length};
ghost use Rattle.floats.specs.Lists.{upto};
ghost use Rattle.layout.specs.Layout.{axis_codes, row_words};
ghost use Rattle.arc_centre.specs.Types.{ends_is};
ghost use Rattle.arc_words.specs.Words.{last_word};

use layout::{AXIS_CODES, R_CELLS};

// The words of the last row: its cells of the axes, and the two of the plane by the programmed end.
pub fn put_last(words: &mut [u64], row: &[u64], e: arc_centre::Ends, u: usize, v: usize)
    requires { (length words.old ≡ axis_codes) × ((length row.now ≡ row_words) × ((u < axis_codes) × (v < axis_codes))) }
    ensures { words.new ≡ upto (last_word (ends_is e) u v row.now) axis_codes }
{
    words.copy_from_slice(&row[R_CELLS..R_CELLS + AXIS_CODES]);
    words[v] = floats::bits(e.ev);
    words[u] = floats::bits(e.eu);
}
