// The number in a field: a sign, whole digits, decimals.
#![tactic(auto)]

ghost use Rattle.std.specs.Prelude.{◌≡◌, ◌<◌};
ghost use Rattle.csv_fields.specs.Read.{fraction, unsigned, number};

use csv_fields::scan;

// The number whose digits before the point are those of n, and whose digits behind it are s.
fn read_fraction(minus: bool, n: u64, s: &[u8]) -> Option<f64>
    requires { n < 1000000000 }
    ensures { result ≡ fraction minus n s.now }
{
    let a = scan(s, 6, n);
    if a.count == 0 || a.count < s.len() {
        return None;
    }
    Some(csv_power::over_power(minus, a.n, a.count))
}

fn read_unsigned(minus: bool, s: &[u8]) -> Option<f64>
    ensures { result ≡ unsigned minus s.now }
{
    let a = scan(s, 9, 0);
    if a.count == 0 {
        return None;
    }
    match s.get(a.count) {
        None => Some(csv_power::over_power(minus, a.n, 0)),
        Some(b'.') => read_fraction(minus, a.n, &s[a.count + 1..]),
        Some(_) => None,
    }
}

// The number that the text s is. What stands behind the sign is read in one place, whatever the sign, so that its code is laid
// where it is used: a call of it for each sign costs more than the reading of a digit.
pub fn read_number(s: &[u8]) -> Option<f64>
    ensures { result ≡ number s.now }
{
    let minus = matches!(s.first(), Some(b'-'));
    let from = usize::from(minus);
    read_unsigned(minus, &s[from..])
}
