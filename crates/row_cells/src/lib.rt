// The bits of masks, and the plane words. The definitions of a row as words are in specs/.
#![tactic(auto)]

ghost use Rattle.std.specs.Prelude.{◌≡◌, ◌<◌};
ghost use Rattle.row_cells.specs.Bits.{has, with_bit, lowest, others};

// The plane words: X and Y, Z and X, Y and Z.
pub const PLANE_XY: u64 = 17;

pub const PLANE_ZX: u64 = 18;

pub const PLANE_YZ: u64 = 19;

pub fn has_bit(p: u64, k: u64) -> bool
    requires { k < 64 }
    ensures { result ≡ has p k }
{
    (p >> k) % 2 == 1
}

// p with bit k set.
pub fn set_bit(p: u64, k: u64) -> u64
    requires { k < 64 }
    ensures { result ≡ with_bit p k }
{
    p | (1 << k)
}

// The lowest bit that p has, 64 where it has none.
pub fn lowest_bit(p: u64) -> usize
    ensures { result ≡ lowest p }
{
    u64::trailing_zeros(p) as usize
}

// p without its lowest bit.
pub fn other_bits(p: u64) -> u64
    requires { 0 < p }
    ensures { result ≡ others p }
{
    p & (p - 1)
}
