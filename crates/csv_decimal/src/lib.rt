// A size in millionths, the nearest with ties to even: what the row text writes of a number.
#![tactic(auto)]

ghost use Rattle.std.specs.Prelude.{◌≡◌, ◌+◌, ◌*◌, ◌^◌, ◌≤◌, ◌<◌};
ghost use Rattle.std.specs.Float.Ieee as Ieee;
ghost use Rattle.std.specs.Float.{binary64};
ghost use Rattle.std.specs.Float.Ieee.Nearest.{closest};
ghost use Rattle.csv_decimal.specs.Decimal.{millionths};
ghost use Rattle.csv_decimal.specs.Sticky.{Sticky};

// 10^9 in millionths: what is not below it is not written.
const TOO_LARGE: u64 = 1000000000000000;

// d / 2^(j + 1) to the nearest whole number, a tie to the even one.
fn half_even(d: u64, j: u64) -> u64
    requires { j < 63 }
    ensures { result ≡ closest d (2 ^ (j + 1)) }
{
    let h = d >> j;
    let q = h / 2;
    if h % 2 == 0 {
        return q;
    }
    if h << j == d {
        return q + q % 2;
    }
    q + 1
}

// Twice m * 15625 / 1024, and one more where the division leaves a rest: m * 10^6 has up to 73 bits, and this
// is enough of them to round by.
fn sticky(m: u64) -> u64
    requires { m < 2 ^ 53 }
    ensures { Sticky (m * 15625) result }
{
    let p = m * 125;
    let low = p % 1024 * 125;
    let c = p / 1024 * 125 + low / 1024;
    if low % 1024 == 0 {
        return 2 * c;
    }
    2 * c + 1
}

// m / 2^s in millionths, to the nearest whole number, a tie to the even one.
fn scaled(m: u64, s: u64) -> u64
    requires { (m < 2 ^ 53) × ((23 ≤ s) × (s ≤ 74)) }
    ensures { result ≡ closest (m * 1000000) (2 ^ s) }
{
    half_even(sticky(m), s - 16)
}

// The size in millionths of the number with the pattern b. Below the exponent field 1001 it is under half a
// millionth, from 1053 on at least 2^30.
fn size_of_bits(b: u64) -> u64
    ensures { result ≡ millionths (Ieee.of_bits binary64 b) }
{
    let e = b / 0x10_0000_0000_0000 % 2048;
    if e <= 1000 {
        return 0;
    }
    if e >= 1053 {
        return TOO_LARGE;
    }
    let r = scaled(b % 0x10_0000_0000_0000 + 0x10_0000_0000_0000, 1075 - e);
    if r < TOO_LARGE {
        return r;
    }
    TOO_LARGE
}

// The size of x in millionths; 10^15 stands for all that is not below it, a NaN too.
pub fn in_millionths(x: f64) -> u64
    ensures { result ≡ millionths x }
{
    size_of_bits(floats::bits(x))
}
