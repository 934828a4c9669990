// A line of flattened row text in: the row that its first 14 fields are, with the mark that the last one is.
#![tactic(auto)]

ghost use Rattle.std.specs.Prelude.{◌≡◌, ◌≤◌, length, IfSome};
ghost use Rattle.std.proofs.Math.Option.{get_or};
ghost use Rattle.layout.specs.Layout.{row_words};
ghost use Rattle.floats.specs.Lists.{is_some};
ghost use Rattle.flat_read.specs.Flat.{marked_end, marked_row, read_flat};

use layout::R_MARK;

// Where the row of a line ends, and its mark: 0 of a row that was programmed, 1 of a sample.
#[tactic(auto, unfolding(crate::specs::Flat::marked_end))]
fn marked_end(text: &[u8]) -> Option<(usize, u64)>
    ensures { (result ≡ marked_end text.now) × IfSome result (λ m. m.0 ≤ length text.now) }
{
    match text {
        [_, .., b','] => Some((text.len() - 1, 0)),
        [.., b',', b'1'] => Some((text.len() - 2, 1)),
        _ => None,
    }
}

// The row of `text`, with a mark.
#[tactic(auto, unfolding(crate::specs::Flat::marked_row))]
fn read_marked(text: &[u8], mark: u64, row: &mut [u64]) -> bool
    requires { length row.old ≡ row_words }
    ensures { (result ≡ is_some (marked_row mark text.now)) ×
        (row.new ≡ get_or (marked_row mark text.now) row.old) }
{
    if csv_read::read_row(text, row) {
        row[R_MARK] = mark;
        return true;
    }
    false
}

// The row that the text of a line, without its CRLF, is, into row; where it is none, row stays.
#[tactic(auto, unfolding(crate::specs::Flat::read_flat))]
pub fn read_flat(text: &[u8], row: &mut [u64]) -> bool
    requires { length row.old ≡ row_words }
    ensures { (result ≡ is_some (read_flat text.now)) ×
        (row.new ≡ get_or (read_flat text.now) row.old) }
{
    match marked_end(text) {
        Some((n, mark)) => read_marked(&text[..n], mark, row),
        None => false,
    }
}
