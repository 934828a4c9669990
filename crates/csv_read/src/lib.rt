// A row in: from the text of a line to the words of a row.
#![tactic(auto)]

ghost use Rattle.std.specs.Prelude.{◌≡◌, length};
ghost use Rattle.std.proofs.Math.Option.{get_or};
ghost use Rattle.layout.specs.Layout.{row_words};
ghost use Rattle.floats.specs.Lists.{is_some};
ghost use Rattle.csv_line.specs.LineText.{parted};
ghost use Rattle.csv_read.specs.Reader.{from_plane, from_motion, read_row};

use layout::{R_LINE, R_MOTION, R_PLANE, ROW_WORDS};

// The rest of a row, from its plane word on.
fn read_from_plane(text: &[u8], line: u64, motion: u64, row: &mut [u64]) -> bool
    requires { length row.old ≡ row_words }
    ensures { (result ≡ is_some (from_plane line motion (parted text.now))) ×
        (row.new ≡ get_or (from_plane line motion (parted text.now)) row.old) }
{
    let end = csv_cells::field_end(text, 0);
    let Some(plane) = csv_words::read_plane(&text[..end]) else {
        return false;
    };
    if end == text.len() {
        return false;
    }
    let mut words = [0u64; ROW_WORDS];
    words[R_LINE] = line;
    words[R_MOTION] = motion;
    words[R_PLANE] = plane as u64;
    let from = end + 1;
    if csv_cells::read_cells(&text[from..], &mut words) {
        row.copy_from_slice(&words);
        return true;
    }
    false
}

// The rest of a row, from its motion word on.
fn read_from_motion(text: &[u8], line: u64, row: &mut [u64]) -> bool
    requires { length row.old ≡ row_words }
    ensures { (result ≡ is_some (from_motion line (parted text.now))) ×
        (row.new ≡ get_or (from_motion line (parted text.now)) row.old) }
{
    let end = csv_cells::field_end(text, 0);
    let Some(motion) = csv_words::read_motion(&text[..end]) else {
        return false;
    };
    if end == text.len() {
        return false;
    }
    let from = end + 1;
    read_from_plane(&text[from..], line, motion as u64, row)
}

// The row that the text of a line, without its CRLF, is, into row; where it is none, row stays.
pub fn read_row(text: &[u8], row: &mut [u64]) -> bool
    requires { length row.old ≡ row_words }
    ensures { (result ≡ is_some (read_row text.now)) × (row.new ≡ get_or (read_row text.now) row.old) }
{
    let end = csv_cells::field_end(text, 0);
    let Some(line) = csv_fields::read_line(&text[..end]) else {
        return false;
    };
    if end == text.len() {
        return false;
    }
    let from = end + 1;
    read_from_motion(&text[from..], line as u64, row)
}
