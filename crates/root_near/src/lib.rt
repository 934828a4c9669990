// The whole number nearest to the root of m * 2^52. A table and a parabola give the root's upper half, and what
// that leaves of the number gives the lower. The result is nearly always the nearest, which is checked exactly.
// The check is a branch, so that a caller need not wait for it. Where it refuses, the next number is tried, and
// then a digit at a time. So no proof rests on how good the guess is.
#![tactic(auto)]

ghost use Rattle.std.specs.Prelude.{◌≡◌, false, ◌⊎◌, ℕ, ◌+◌, ◌-◌, ◌*◌, ◌^◌, ◌≤◌, ◌<◌};
ghost use Rattle.root_near.specs.Nearest.{Nearest};

use root_guess::{inverse, lower, upper};

// The whole number nearest to the root of m * 2^52, a binary digit at a time.
pub fn by_digits(m: u64) -> u64
    requires { (0 < m) × (m < 2 ^ 54) }
    ensures { Nearest m result }
{
    let mut x = m << 10;
    let mut root: u64 = 0;
    let mut rest: u64 = 0;
    for _ in 0..53u64 {
        rest = rest * 4 + x / 0x4000_0000_0000_0000;
        x = x << 2;
        let t = root * 4 + 1;
        if t <= rest {
            rest -= t;
            root = root * 2 + 1;
        } else {
            root = root * 2;
        }
    }
    if rest > root { root + 1 } else { root }
}

fn square(a: u64) -> u64
    requires { a < 2 ^ 32 }
    ensures { result ≡ a * a }
{
    a * a
}

// Whether a * 2^22 + b is the whole number nearest to the root of m * 2^52, where u + a * a is m * 2^8: what
// its square leaves of m * 2^52 is (u * 2^22 - 2 * a * b) * 2^22 - b * b.
fn settles(u: u64, a: u64, b: u64) -> bool
    requires { (u < 2 ^ 35) × ((a < 2 ^ 32) × (b < 2 ^ 27)) }
    ensures { (result ≡ false) ⊎ ((m : ℕ) → u + a * a ≡ m * 2 ^ 8 → Nearest m (a * 2 ^ 22 + b)) }
{
    let left = u * 0x40_0000 + a;
    let cross = a * b * 2;
    if left < cross {
        return false;
    }
    let over = left - cross;
    if over >= 0x100_0000_0000 {
        return false;
    }
    let more = over * 0x40_0000;
    let low = b * b;
    if more + b <= low {
        return false;
    }
    if more > a * 0x80_0000 + b + low {
        return false;
    }
    true
}

// base and the whole number nearest to the root of m * 2^52, where m is the digits of g or twice that. The
// guess takes them from g, and the result is the same whatever g is. The half that rounds the lower digits
// is added to what they come from, where it is a / 2^22.
pub fn near(m: u64, g: u64, base: u64) -> u64
    requires { ((2 ^ 52 ≤ m) × (m + 2 ≤ 2 ^ 54)) × (base ≤ 2 ^ 63) }
    ensures { (base ≤ result) × Nearest m (result - base) }
{
    let y = inverse(g);
    if y < 0x8000_0000 {
        let a = upper(g, y);
        let q = square(a);
        let n = m * 0x100;
        if q <= n {
            let u = n - q;
            if u < 0x7_0000_0000 {
                let b = lower(n + a / 0x40_0000 - q, g, y);
                if settles(u, a, b) {
                    return base + a * 0x40_0000 + b;
                }
                if settles(u, a, b + 1) {
                    return base + a * 0x40_0000 + (b + 1);
                }
            }
        }
    }
    base + by_digits(m)
}
