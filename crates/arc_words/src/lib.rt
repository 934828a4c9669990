// The plane's two axes, and the words of an arc's rows in axis order: at a sample, and at the programmed end.
#![tactic(auto)]

ghost use Rattle.std.specs.Prelude.{◌≡◌, ◌<◌, ◌≤◌, length};
ghost use Rattle.floats.specs.Lists.{upto};
ghost use Rattle.layout.specs.Layout.{axis_codes, axis_masks, row_words};
ghost use Rattle.row_cells.specs.Codes.{plane_u, plane_v};
ghost use Rattle.row_cells.specs.Row.{shown, present_of};
ghost use Rattle.row_cells.specs.Bits.{mask_sum};
ghost use Rattle.arc_numbers.specs.Types.{arc_is};
ghost use Rattle.arc_words.specs.Words.{drawn, start_of, span_of, ramp_of, sample_word, SampleOf};

use layout::R_PRESENT;

pub fn plane_u(plane: u64) -> usize
    ensures { (result ≡ plane_u plane) × (result < 3) }
{
    if plane == row_cells::PLANE_ZX {
        2
    } else if plane == row_cells::PLANE_YZ {
        1
    } else {
        0
    }
}

pub fn plane_v(plane: u64) -> usize
    ensures { (result ≡ plane_v plane) × (result < 3) }
{
    if plane == row_cells::PLANE_ZX {
        0
    } else if plane == row_cells::PLANE_YZ {
        2
    } else {
        1
    }
}

// The axes that the rows of an arc have: the programmed ones of the geometric, and the plane's.
pub fn drawn_axes(row: &[u64], gs: u64, u: usize, v: usize) -> u64
    requires { (length row.now ≡ row_words) × ((gs < axis_masks) × ((u < axis_codes) × (v < axis_codes))) }
    ensures { result ≡ mask_sum (drawn gs (present_of row.now) u v) axis_codes }
{
    let named = gs & row[R_PRESENT];
    row_cells::set_bit(row_cells::set_bit(named, u as u64), v as u64)
}

// Where axis k starts its ramp: at its position, or at its end where that is not known.
fn start_on(row: &[u64], known: u64, at: &[u64], k: usize) -> f64
    requires { (length row.now ≡ row_words) × ((axis_codes ≤ length at.now) × (k < axis_codes)) }
    ensures { result ≡ start_of row.now (shown known at.now) k }
{
    if row_cells::has_bit(known, k as u64) {
        return floats::of_bits(at[k]);
    }
    floats::of_bits(row[layout::R_CELLS + k])
}

pub fn put_starts(starts: &mut [f64], row: &[u64], known: u64, at: &[u64])
    requires { (length starts.old ≡ axis_codes) × ((length row.now ≡ row_words) × (axis_codes ≤ length at.now)) }
    ensures { starts.new ≡ upto (start_of row.now (shown known at.now)) axis_codes }
{
    for (k, start) in starts.iter_mut().enumerate() {
        *start = start_on(row, known, at, k);
    }
}

pub fn put_spans(spans: &mut [f64], row: &[u64], starts: &[f64])
    requires { (length spans.old ≡ axis_codes) × ((length row.now ≡ row_words) × (length starts.now ≡ axis_codes)) }
    ensures { spans.new ≡ upto (span_of row.now starts.now) axis_codes }
{
    for (k, span) in spans.iter_mut().enumerate() {
        *span = floats::of_bits(row[layout::R_CELLS + k]) - starts[k];
    }
}

// Every axis at the fraction f of its ramp. The count is a constant, so that the loop needs no test of the slices' lengths.
fn put_ramps(words: &mut [u64], starts: &[f64], spans: &[f64], f: f64)
    requires { (length words.old ≡ axis_codes) × ((length starts.now ≡ axis_codes) × (length spans.now ≡ axis_codes)) }
    ensures { words.new ≡ upto (ramp_of starts.now spans.now f) axis_codes }
{
    for k in 0..layout::AXIS_CODES {
        words[k] = floats::bits(starts[k] + spans[k] * f);
    }
}

// The words of the sample at the fraction f.
pub fn put_sample(
    words: &mut [u64],
    c: arc_numbers::Arc,
    u: usize,
    v: usize,
    starts: &[f64],
    spans: &[f64],
    f: f64,
)
    requires { SampleOf words.old u v starts.now spans.now }
    ensures { words.new ≡ upto (sample_word (arc_is c) u v starts.now spans.now f) axis_codes }
{
    put_ramps(words, starts, spans, f);
    let p = arc_place::sample(c, f);
    words[v] = floats::bits(p.v);
    words[u] = floats::bits(p.u);
}
