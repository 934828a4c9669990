// Whether a root is at most a bound, decided without taking the root.
#![tactic(auto)]

ghost use Rattle.std.specs.Prelude.{◌≡◌, ◌*◌, ◌^◌, ◌≤◌, ◌<◌};
ghost use Rattle.std.specs.Float.Ieee as Ieee;
ghost use Rattle.std.specs.Float.{binary64};
ghost use Rattle.root.specs.Root.{sqrt};
ghost use Rattle.root_bound.specs.Greatest as Greatest;

use root::{root, taken};

fn product(a: u64, b: u64) -> u64
    requires { (a < 2 ^ 27) × (b < 2 ^ 27) }
    ensures { (result ≡ a * b) × (result < 2 ^ 54) }
{
    a * b
}

// The greatest digits whose root's are at most t, by the halves of t, so that no product is too large.
fn greatest(t: u64) -> u64
    requires { t < 2 ^ 53 }
    ensures { result ≡ Greatest.greatest t }
{
    let a = t / 0x800_0000;
    let b = t % 0x800_0000;
    let low = (product(b, b) + t) / 0x800_0000;
    4 * product(a, a) + (2 * product(a, b) + low) / 0x200_0000
}

// The same for numbers above 0, finite and not subnormal, by their bits.
fn normal_at_most(x: u64, y: u64) -> bool
    requires bound { (2 ^ 52 ≤ x) × (x < 2047 * 2 ^ 52) }
    requires bound_2 { (2 ^ 52 ≤ y) × (y < 2047 * 2 ^ 52) }
    ensures { result ≡ Ieee.le (sqrt binary64 (Ieee.of_bits binary64 x)) (Ieee.of_bits binary64 y) }
{
    let k = ((x >> 52) + 1021) / 2;
    let j = (y >> 52) - 1;
    if k != j {
        return k < j;
    }
    taken(x) <= greatest(y % 0x10_0000_0000_0000 + 0x10_0000_0000_0000)
}

fn is_normal(b: u64) -> bool
    ensures { result ≡ Greatest.normal b }
{
    0x10_0000_0000_0000 <= b && b < 0x7ff0_0000_0000_0000
}

// Whether the root of x is at most y.
pub fn root_at_most(x: f64, y: f64) -> bool
    ensures { result ≡ Ieee.le (sqrt binary64 x) y }
{
    let a = floats::bits(x);
    let b = floats::bits(y);
    if is_normal(a) && is_normal(b) {
        return normal_at_most(a, b);
    }
    root(x) <= y
}
