// The square root of an f64, correctly rounded (nearest, ties to even), by integer arithmetic alone.
#![tactic(auto)]

ghost use Rattle.std.specs.Prelude.{◌≡◌, ◌*◌, ◌^◌, ◌≤◌, ◌<◌};
ghost use Rattle.std.specs.Float.Ieee as Ieee;
ghost use Rattle.std.specs.Float.{binary64};
ghost use Rattle.root.specs.Root.{sqrt};
ghost use Rattle.root.specs.Digits as Digits;

use root_near::{by_digits, near};

// The digits of a pattern as its root takes them.
pub fn taken(b: u64) -> u64
    ensures { result ≡ Digits.taken b }
{
    let f = b % 0x10_0000_0000_0000 + 0x10_0000_0000_0000;
    if (b >> 52) % 2 == 0 { f * 2 } else { f }
}

// The bits of the root of the number, above 0, finite and not subnormal, whose bits are b.
fn of_normal(b: u64) -> u64
    requires { (2 ^ 52 ≤ b) × (b < 2047 * 2 ^ 52) }
    ensures { result ≡ Ieee.to_bits binary64 (sqrt binary64 (Ieee.of_bits binary64 b)) }
{
    near(taken(b), b, ((b >> 52) + 1021) / 2 * 0x10_0000_0000_0000)
}

// The bits of the root of b times the smallest number above 0, for a b that is subnormal. That is
// rare, so it takes no guess: `near` then has one caller, into which LLVM puts it.
fn of_subnormal(b: u64) -> u64
    requires { (0 < b) × (b < 2 ^ 52) }
    ensures { result ≡ Ieee.to_bits binary64 (sqrt binary64 (Ieee.of_bits binary64 b)) }
{
    let shift = (u64::leading_zeros(b) - 11) as u64;
    let f = b << shift;
    let m = if shift % 2 == 0 { f } else { f * 2 };
    (1022 - shift) / 2 * 0x10_0000_0000_0000 + by_digits(m)
}

pub fn root_bits(b: u64) -> u64
    ensures { result ≡ Ieee.to_bits binary64 (sqrt binary64 (Ieee.of_bits binary64 b)) }
{
    if 0x10_0000_0000_0000 <= b {
        if b < 0x7ff0_0000_0000_0000 {
            return of_normal(b);
        }
        if b == 0x7ff0_0000_0000_0000 {
            return b;
        }
        if b == 0x8000_0000_0000_0000 {
            return b;
        }
        return 0x7ff8_0000_0000_0000;
    }
    if b == 0 {
        return 0;
    }
    of_subnormal(b)
}

pub fn root(x: f64) -> f64
    ensures { result ≡ sqrt binary64 x }
{
    if x >= 0.0 {
        f64::from_bits(root_bits(f64::to_bits(x)))
    } else {
        0.0 / 0.0
    }
}
