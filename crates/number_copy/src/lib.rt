// Numbers copied without the C library: an archive for C asks it for memset alone.
#![tactic(auto)]

ghost use Rattle.std.specs.Prelude.{◌≡◌, length};

// Makes `to` the numbers of `from`, one after another. `copy_from_slice` would ask for memmove, and this for memcpy where it
// became part of a caller that has `to` in its frame: hence `inline(never)`.
#[inline(never)]
pub fn copy(from: &[f64], to: &mut [f64])
    requires { length from.now ≡ length to.old }
    ensures { to.new ≡ from.now }
{
    for (i, x) in to.iter_mut().enumerate() {
        *x = from[i];
    }
}
