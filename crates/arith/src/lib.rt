// The arithmetic for programs in other languages: what runs against Rust's std and measurements link. The C interface names
// each function.
#![tactic(auto)]

ghost use Rattle.std.specs.Prelude.{◌≡◌};
ghost use Rattle.std.specs.Float.Ieee as Ieee;
ghost use Rattle.std.specs.Float.{binary64};
ghost use Rattle.root.specs.Root.{sqrt};
ghost use Rattle.whole.specs.Whole.{ceil_count, half_up_count, trunc_count};
ghost use Rattle.trig.specs.Trig.{sin_steps, cos_steps, atan2_steps, acos_steps, euclid};

#[unsafe(no_mangle)]
pub extern "C" fn arith_root_bits(b: u64) -> u64
    ensures { result ≡ Ieee.to_bits binary64 (sqrt binary64 (Ieee.of_bits binary64 b)) }
{
    root::root_bits(b)
}

#[unsafe(no_mangle)]
pub extern "C" fn arith_root(x: f64) -> f64
    ensures { result ≡ sqrt binary64 x }
{
    root::root(x)
}

#[unsafe(no_mangle)]
pub extern "C" fn arith_root_at_most(x: f64, y: f64) -> bool
    ensures { result ≡ Ieee.le (sqrt binary64 x) y }
{
    root_bound::root_at_most(x, y)
}

#[unsafe(no_mangle)]
pub extern "C" fn arith_ceil(x: f64) -> u64
    ensures { result ≡ ceil_count x }
{
    whole::ceil_count(x)
}

#[unsafe(no_mangle)]
pub extern "C" fn arith_half_up(x: f64) -> u64
    ensures { result ≡ half_up_count x }
{
    whole::half_up_count(x)
}

#[unsafe(no_mangle)]
pub extern "C" fn arith_trunc(x: f64) -> u64
    ensures { result ≡ trunc_count x }
{
    whole::trunc_count(x)
}

#[unsafe(no_mangle)]
pub extern "C" fn arith_sin(x: f64) -> f64
    ensures { result ≡ sin_steps x }
{
    trig::sin(x)
}

#[unsafe(no_mangle)]
pub extern "C" fn arith_cos(x: f64) -> f64
    ensures { result ≡ cos_steps x }
{
    trig::cos(x)
}

#[unsafe(no_mangle)]
pub extern "C" fn arith_sincos(x: f64, s: &mut f64, c: &mut f64)
    ensures { (s.new ≡ sin_steps x) × (c.new ≡ cos_steps x) }
{
    let a = trig::sincos(x);
    *s = a.sin;
    *c = a.cos;
}

#[unsafe(no_mangle)]
pub extern "C" fn arith_atan2(y: f64, x: f64) -> f64
    ensures { result ≡ atan2_steps y x }
{
    trig_atan::atan2(y, x)
}

#[unsafe(no_mangle)]
pub extern "C" fn arith_acos(x: f64) -> f64
    ensures { result ≡ acos_steps x }
{
    trig_atan::acos(x)
}

#[unsafe(no_mangle)]
pub extern "C" fn arith_rem_euclid_tau(x: f64) -> f64
    ensures { result ≡ euclid x }
{
    trig::rem_euclid_tau(x)
}
