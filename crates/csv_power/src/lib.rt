// A whole number over a power of ten, rounded once.
#![tactic(auto)]

ghost use Rattle.std.specs.Prelude.{◌≡◌, ◌^◌, ◌<◌};
ghost use Rattle.csv_decimal.specs.Decimal.{quotient};

// 10^k, for a k below 10.
fn power(k: usize) -> u64
    requires { k < 10 }
    ensures { result ≡ 10 ^ k }
{
    match k {
        0 => 1,
        1 => 10,
        2 => 100,
        3 => 1000,
        4 => 10000,
        5 => 100000,
        6 => 1000000,
        7 => 10000000,
        8 => 100000000,
        _ => 1000000000,
    }
}

// n / 10^k, with a minus sign if it is not zero.
pub fn over_power(minus: bool, n: u64, k: usize) -> f64
    requires { k < 10 }
    ensures { result ≡ quotient minus n k }
{
    let q = std::num::nearest_u64_to_f64(n) / std::num::nearest_u64_to_f64(power(k));
    if minus && n > 0 { -q } else { q }
}
