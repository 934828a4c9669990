// The steps of the checksum that POSIX `cksum` prints: a bit on, and a byte.
#![tactic(auto)]

ghost use Rattle.std.specs.Prelude.{◌≡◌};
ghost use Rattle.checksum.specs.Checksum.{step, steps, with_byte};

// What x^32 leaves.
const POLYNOMIAL: u64 = 0x04c1_1db7;

// The top bit of a sum, a sum's first byte by its lowest bit, and what bytes are below.
const TOP_BIT: u64 = 0x8000_0000;

pub const FIRST_BYTE: u64 = 0x0100_0000;

pub const BYTES: u64 = 256;

// One bit on.
fn one_step(s: u64) -> u64
    ensures { result ≡ step s }
{
    let d = s % TOP_BIT * 2;
    if s / TOP_BIT % 2 == 0 {
        return d;
    }
    d ^ POLYNOMIAL
}

// Eight bits on.
pub fn eight_steps(s: u64) -> u64
    ensures { result ≡ steps 8 s }
{
    let mut sum = s;
    for _ in 0..8u64 {
        sum = one_step(sum);
    }
    sum
}

// A byte, bit by bit.
pub fn with_byte(s: u64, b: u8) -> u64
    ensures { result ≡ with_byte s b }
{
    eight_steps(s ^ (b as u64 * FIRST_BYTE))
}
