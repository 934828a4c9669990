// The digits of a whole number: how many, the last one, and one byte as a number.
#![tactic(auto)]

ghost use Rattle.std.specs.Prelude.{◌≡◌, ◌+◌, ◌%◌};
ghost use Rattle.csv_decimal.specs.Decimal.{width};

// A byte as a number.
pub fn wide(x: u8) -> u64
    ensures { result ≡ x }
{
    x as u64
}

// The last digit of v, as a byte.
pub fn last_figure(v: u64) -> u8
    ensures { result ≡ 48 + v % 10 }
{
    (48 + v % 10) as u8
}

// How many digits n has.
pub fn digits(n: u64) -> usize
    ensures { result ≡ width n }
{
    if n < 10 {
        return 1;
    }
    if n < 100 {
        return 2;
    }
    if n < 1000 {
        return 3;
    }
    if n < 10000 {
        return 4;
    }
    if n < 100000 {
        return 5;
    }
    if n < 1000000 {
        return 6;
    }
    if n < 10000000 {
        return 7;
    }
    if n < 100000000 {
        return 8;
    }
    if n < 1000000000 {
        return 9;
    }
    10
}
