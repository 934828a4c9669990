// Whole numbers from a float, for every float: rounded up, nearest with halves up, truncated. Three functions, and not one
// with a closure: only the tests of the bounds are alike, and each has a bound and a step of its own.
#![tactic(auto)]

ghost use Rattle.std.specs.Prelude.{◌≡◌};
ghost use Rattle.whole.specs.Whole.{ceil_count, half_up_count, trunc_count};

const TWO_TO_53: f64 = 9007199254740992.0;

const TWO_TO_52: f64 = 4503599627370496.0;

// x rounded up to a whole number, held in 0 to 2^53; 0 of a NaN.
pub fn ceil_count(x: f64) -> u64
    ensures { result ≡ ceil_count x }
{
    if 0.0 < x {
        if x < TWO_TO_53 {
            let t = std::num::truncating_f64_to_u64(x);
            if std::num::nearest_u64_to_f64(t) < x {
                t + 1
            } else {
                t
            }
        } else {
            9007199254740992
        }
    } else {
        0
    }
}

// x rounded to a whole number, a half going up, held in 0 to 2^52; 0 of a NaN.
pub fn half_up_count(x: f64) -> u64
    ensures { result ≡ half_up_count x }
{
    if 0.0 < x {
        if x < TWO_TO_52 {
            let t = std::num::truncating_f64_to_u64(x);
            if x < std::num::nearest_u64_to_f64(t) + 0.5 {
                t
            } else {
                t + 1
            }
        } else {
            4503599627370496
        }
    } else {
        0
    }
}

// x without its fraction, held in 0 to 2^53; 0 of a NaN.
pub fn trunc_count(x: f64) -> u64
    ensures { result ≡ trunc_count x }
{
    if 0.0 < x {
        if x < TWO_TO_53 {
            std::num::truncating_f64_to_u64(x)
        } else {
            9007199254740992
        }
    } else {
        0
    }
}
