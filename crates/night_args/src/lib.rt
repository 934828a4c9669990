// The fields of an argument, and how many tolerances a list of them has.
#![tactic(auto)]

ghost use Rattle.std.specs.Prelude.{◌≡◌, ◌<◌, ◌≤◌, length, MatchOption};
ghost use Rattle.csv_line.specs.LineText.{parted};
ghost use Rattle.night_args.specs.Tolerances.{count_of};
ghost use Rattle.night_args.specs.Fields.{IsField};

use csv_cells::field_end;
use night_tolerance::is_tolerance;

// At most so many tolerances.
pub const MOST_TOLERANCES: usize = 16;

// Field i of a text, where it has one.
pub fn field_at(text: &[u8], i: usize) -> Option<&[u8]>
    ensures { MatchOption result (length (parted text.now) ≤ i) (λ field. IsField text.now i field.now) }
{
    let mut at = 0;
    for _ in 0..i {
        let end = field_end(text, at);
        if end == text.len() {
            return None;
        }
        at = end + 1;
    }
    Some(&text[at..field_end(text, at)])
}

// How many tolerances a list of them has, where it has no other field and not too many.
pub fn count_of(text: &[u8]) -> Option<usize>
    ensures { result ≡ count_of text.now }
{
    let mut at = 0;
    for k in 0..MOST_TOLERANCES {
        let end = field_end(text, at);
        if !is_tolerance(&text[at..end]) {
            return None;
        }
        if end == text.len() {
            return Some(k + 1);
        }
        at = end + 1;
    }
    None
}
