// Sine, cosine, and the remainder by tau: the step lists of docs/TRIG.md.
#![tactic(auto)]

ghost use Rattle.std.specs.Float.Ieee as Ieee;
ghost use Rattle.std.specs.Float.{binary64};
ghost use Rattle.std.specs.Prelude.{◌≡◌};
ghost use Rattle.floats.specs.Numbers.{tau};
ghost use Rattle.trig.specs.Remainder.{left_by_tau};
ghost use Rattle.trig.specs.Trig.{sin_of, cos_of, sin_turned, cos_turned, sin_steps, cos_steps, euclid};

const TWO_OVER_PI: f64 = 0.6366197723675814;

const MAGIC: f64 = 6755399441055744.0;

const PI_HALF_A: f64 = 1.5707963267941523;

const PI_HALF_B: f64 = 7.443547480486623e-13;

const S0: f64 = -0.166666666666666;

const S1: f64 = 0.008333333333316218;

const S2: f64 = -0.0001984126982574268;

const S3: f64 = 2.755731248234152e-06;

const S4: f64 = -2.5050590860034796e-08;

const S5: f64 = 1.5888057520185978e-10;

const C0: f64 = 0.0416666666666666;

const C1: f64 = -0.0013888888888874474;

const C2: f64 = 2.4801587289671527e-05;

const C3: f64 = -2.7557314401024343e-07;

const C4: f64 = 2.0875729279968065e-09;

const C5: f64 = -1.1359934159146366e-11;

pub const TAU: f64 = 6.283185307179586;

// TAU is so many of these: 2^-50.
const TAU_DIGITS: u64 = 0x19_21fb_5444_2d18;

const DIGIT: f64 = 8.881784197001252e-16;

// Where a pattern's exponent stands, what that is of TAU and of no number, and where the sign stands.
const EXPONENT: u64 = 0x10_0000_0000_0000;

const TAU_EXPONENT: u64 = 1025;

const NO_NUMBER: u64 = 2047;

const SIGN: u64 = 0x8000_0000_0000_0000;

#[derive(Clone, Copy)]
pub struct Angle {
    pub sin: f64,
    pub cos: f64,
}

fn sin_of(r: f64, z: f64, zz: f64) -> f64
    ensures { result ≡ sin_of r z zz }
{
    r + r * z * (S0 + z * S1 + zz * (S2 + z * S3 + zz * (S4 + z * S5)))
}

fn cos_of(z: f64, zz: f64) -> f64
    ensures { result ≡ cos_of z zz }
{
    1.0 - (0.5 * z - zz * (C0 + z * C1 + zz * (C2 + z * C3 + zz * (C4 + z * C5))))
}

fn turned(q: f64, s: f64, c: f64) -> Angle
    ensures { (result.sin ≡ sin_turned q s c) × (result.cos ≡ cos_turned q s c) }
{
    if q == 0.0 {
        Angle { sin: s, cos: c }
    } else if q == 1.0 {
        Angle { sin: c, cos: -s }
    } else if q == -1.0 {
        Angle { sin: -c, cos: s }
    } else {
        Angle { sin: -s, cos: -c }
    }
}

pub fn sincos(x: f64) -> Angle
    ensures { (result.sin ≡ sin_steps x) × (result.cos ≡ cos_steps x) }
{
    let k = x * TWO_OVER_PI + MAGIC - MAGIC;
    let r = x - k * PI_HALF_A - k * PI_HALF_B;
    let z = r * r;
    let zz = z * z;
    let s = sin_of(r, z, zz);
    let c = cos_of(z, zz);
    turned(k - 4.0 * (k * 0.25 + MAGIC - MAGIC), s, c)
}

// What TAU's digits leave of digits * 2^n, one doubling after another.
fn left_by_tau(digits: u64, n: u64) -> u64
    ensures { result ≡ left_by_tau digits n }
{
    let mut left = digits % TAU_DIGITS;
    for _ in 0..n {
        left = left * 2 % TAU_DIGITS;
    }
    left
}

// x % TAU by whole numbers: for the operator the kit calls fmod, of a C library newer than a machine may have.
fn rem_tau(x: f64) -> f64
    ensures { result ≡ Ieee.rem binary64 x tau }
{
    let b = floats::bits(x);
    let e = b % SIGN / EXPONENT;
    if e < TAU_EXPONENT {
        return x;
    }
    if e == NO_NUMBER {
        return 0.0 / 0.0;
    }
    let left = left_by_tau(b % EXPONENT + EXPONENT, e - TAU_EXPONENT);
    let one = if b < SIGN { DIGIT } else { -DIGIT };
    std::num::nearest_u64_to_f64(left) * one
}

pub fn rem_euclid_tau(x: f64) -> f64
    ensures { result ≡ euclid x }
{
    let r = rem_tau(x);
    if r < 0.0 { r + TAU } else { r }
}

pub fn sin(x: f64) -> f64
    ensures { result ≡ sin_steps x }
{
    let a = sincos(x);
    a.sin
}

pub fn cos(x: f64) -> f64
    ensures { result ≡ cos_steps x }
{
    let a = sincos(x);
    a.cos
}
