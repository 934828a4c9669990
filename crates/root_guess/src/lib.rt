// A guess at the digits of a square root, from a table and a parabola, for crate root to check.
// No contract says how good it is: only that its parts are small enough to go on with.
#![tactic(auto)]

ghost use Rattle.std.specs.Prelude.{◌^◌, ◌≤◌, ◌<◌};

// with 31 digits below the point
const ONE: u64 = 0x8000_0000;

const ROOT_OF_TWO: u64 = 0xb504_f334;

const ROOT_OF_HALF: u64 = 0x5a82_799a;

// 2^31 / sqrt(x) to 29 digits, for the x from 1 up to 2 whose digits below the first are those of g.
pub fn inverse(g: u64) -> u64 {
    let t = root_table::entry((g >> 44) % 256 + 256);
    let w = 0x3f_ffff - (g >> 22) % 0x40_0000;
    (t / 2 + t % 0x1_0000_0000 * w + t % 0x800 * (w * w / 0x200)) / 0x1_0000_0000
}

// Where the exponent in g is even, the root's number is twice g's digits, and its root larger by this.
fn scale(g: u64) -> u64
    ensures { result < 2 ^ 32 }
{
    if (g >> 52) % 2 == 0 { ROOT_OF_TWO } else { ONE }
}

fn inverse_scale(g: u64) -> u64
    ensures { result ≤ 2 ^ 31 }
{
    if (g >> 52) % 2 == 0 {
        ROOT_OF_HALF
    } else {
        ONE
    }
}

// The root's upper digits, from the inverse of g's digits, and a little less, so that the square does not
// end above.
pub fn upper(g: u64, y: u64) -> u64
    requires { y < 2 ^ 31 }
    ensures { result < 2 ^ 32 }
{
    let f = (g >> 21) % 0x8000_0000 + 0x7fff_ffff;
    f * scale(g) / ONE * y / 0x1_0000_0000
}

// The root's lower digits, from what the square of the upper ones leaves.
pub fn lower(u: u64, g: u64, y: u64) -> u64
    requires { (u < 2 ^ 35) × (y < 2 ^ 31) }
    ensures { result < 2 ^ 26 }
{
    u * ((y * inverse_scale(g) + 0x1_4000_0000) / 0x2_0000_0000) / 0x40_0000_0000
}
