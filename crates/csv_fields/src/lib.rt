// The fields of the row text that hold numbers and source lines, read from a slice.
#![tactic(auto)]

ghost use Rattle.std.specs.Prelude.{◌≡◌, ◌≤◌, ◌<◌, take};
ghost use Rattle.csv_fields.specs.Read.{run, num, line_number};

use layout::LINE_NUMBERS;

// How many digits a text begins with, and the whole number they make.
#[derive(Clone, Copy)]
pub struct Scanned {
    pub count: usize,
    pub n: u64,
}

// The digits that s begins with, `most` at most, behind the digits of `start`.
pub fn scan(s: &[u8], most: usize, start: u64) -> Scanned
    requires { (most ≤ 10) × (start < 1000000000) }
    ensures { (result.count ≡ run most s.now) × (result.n ≡ num start (take result.count s.now)) }
{
    let mut n = start;
    for (i, b) in s.iter().enumerate() {
        if i == most || *b < b'0' || *b > b'9' {
            return Scanned { count: i, n };
        }
        n = n * 10 + u64::from(*b - b'0');
    }
    Scanned { count: s.len(), n }
}

// The line number that the text s is.
pub fn read_line(s: &[u8]) -> Option<u32>
    ensures { result ≡ line_number s.now }
{
    let a = scan(s, 10, 0);
    if a.count > 0 && a.count == s.len() && a.n < LINE_NUMBERS {
        return Some(a.n as u32);
    }
    None
}
