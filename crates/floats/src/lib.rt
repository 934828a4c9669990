// Numbers and their bits, with nothing asked of either, and their sizes.
#![tactic(auto)]

ghost use Rattle.std.specs.Prelude.{◌≡◌};
ghost use Rattle.floats.specs.Numbers.{abs_of, larger_of, held_in};
ghost use Rattle.std.specs.Float.Ieee as Ieee;
ghost use Rattle.std.specs.Float.{binary64};

// No more than this counts as nothing: a chord, a sweep, a step of one, growth of the chord sum, Akima's weights.
pub const TINY: f64 = 1e-12;

// The bit pattern of x, at every x: a NaN's is 7FF8000000000000.
pub fn bits(x: f64) -> u64
    ensures { result ≡ Ieee.to_bits binary64 x }
{
    if x != x {
        0x7ff8000000000000
    } else {
        f64::to_bits(x)
    }
}

// The number that a pattern stands for, at every pattern.
pub fn of_bits(n: u64) -> f64
    ensures { result ≡ Ieee.of_bits binary64 n }
{
    if n % 0x8000000000000000 > 0x7ff0000000000000 {
        0.0 / 0.0
    } else {
        f64::from_bits(n)
    }
}

pub fn abs(x: f64) -> f64
    ensures { result ≡ abs_of x }
{
    if x > 0.0 { x } else { 0.0 - x }
}

pub fn larger(x: f64, y: f64) -> f64
    ensures { result ≡ larger_of x y }
{
    if x < y { y } else { x }
}

// x held between lo and hi.
pub fn held_in(lo: f64, hi: f64, x: f64) -> f64
    ensures { result ≡ held_in lo hi x }
{
    if x < lo {
        lo
    } else if hi < x {
        hi
    } else {
        x
    }
}
