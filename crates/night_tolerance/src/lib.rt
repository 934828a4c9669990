// A tolerance of a night by its text: whether it is one, and its bits.
#![tactic(auto)]

ghost use Rattle.std.specs.Prelude.{◌≡◌};
ghost use Rattle.night_tolerance.specs.Tolerance.{is_tolerance, bits_of};

use csv_values::read_number;

// Whether a text is a tolerance: a number above zero.
pub fn is_tolerance(text: &[u8]) -> bool
    ensures { result ≡ is_tolerance text.now }
{
    match read_number(text) {
        Some(x) => x > 0.0,
        None => false,
    }
}

// Its bits.
pub fn bits_of(text: &[u8]) -> u64
    ensures { result ≡ bits_of text.now }
{
    match read_number(text) {
        Some(x) => floats::bits(x),
        None => 0,
    }
}
