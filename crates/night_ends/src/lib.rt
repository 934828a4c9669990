// What a text ends in: a word, or `.try` and digits, as the rows of a try are named.
#![tactic(auto)]

ghost use Rattle.std.specs.Prelude.{◌≡◌, ◌≤◌, length};
ghost use Rattle.csv_fields.specs.Read.{is_digit};
ghost use Rattle.night_ends.specs.Ends.{ends_in, digits_upto, ends_try};

// Whether a text ends in a word.
pub fn ends_in(text: &[u8], word: &[u8]) -> bool
    ensures { result ≡ ends_in text.now word.now }
{
    text.ends_with(word)
}

fn is_digit(b: u8) -> bool
    ensures { result ≡ is_digit b }
{
    b.is_ascii_digit()
}

// The place at which the digits at a text's end begin.
fn digits_from(text: &[u8]) -> usize
    ensures { (result ≡ digits_upto text.now (length text.now)) × (result ≤ length text.now) }
{
    for k in (0..text.len()).rev() {
        if !is_digit(text[k]) {
            return k + 1;
        }
    }
    0
}

// Whether a NAME ends in `.try` and digits.
#[tactic(auto, using(crate::proofs::Ending::try_none, crate::proofs::Ending::try_some))]
pub fn ends_try(name: &[u8]) -> bool
    ensures { result ≡ ends_try name.now }
{
    let at = digits_from(name);
    if at == name.len() {
        return false;
    }
    ends_in(&name[..at], b".try")
}
