// The end of a checksum: the bytes of a length, and all bits turned.
#![tactic(auto)]

ghost use Rattle.std.specs.Prelude.{◌≡◌};
ghost use Rattle.checksum.specs.Checksum.{ended};
ghost use Rattle.checksum_length.specs.Length.{length_step};

use checksum::{BYTES, with_byte};

// What sums are below.
const SUMS: u64 = 0x1_0000_0000;

// The next byte of a length, where one is left.
fn length_byte(s: u64, n: u64) -> u64
    ensures { result ≡ length_step s n }
{
    if n == 0 {
        return s;
    }
    with_byte(s, (n % BYTES) as u8)
}

// The checksum, where s is the sum over `length` bytes.
pub fn ended(s: u64, length: u64) -> u64
    ensures { result ≡ ended s length }
{
    let mut sum = s;
    let mut left = length;
    for _ in 0..8u64 {
        sum = length_byte(sum, left);
        left = left / BYTES;
    }
    SUMS - 1 - sum % SUMS
}
