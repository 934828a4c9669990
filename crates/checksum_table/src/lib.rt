// The sum over bytes, piece by piece, by a table.
#![tactic(auto)]

ghost use Rattle.std.specs.Prelude.{◌≡◌, length};
ghost use Rattle.checksum.specs.Checksum.{with_byte, with_bytes};
ghost use Rattle.checksum_table.specs.Table.{TableTo};

use checksum::{BYTES, FIRST_BYTE, eight_steps};

// The table of what a first byte leaves. It is made at each call, in the time that a few hundred bytes take, since a
// table that is a constant would have to be proved entry by entry.
fn make_table(table: &mut [u64])
    requires { length table.old ≡ 256 }
    ensures { TableTo 256 table.new }
{
    for (k, entry) in table.iter_mut().enumerate() {
        *entry = eight_steps(k as u64 * FIRST_BYTE);
    }
}

// A byte, by the table.
fn looked_up(s: u64, b: u8, table: &[u64]) -> u64
    requires { TableTo 256 table.now }
    ensures { result ≡ with_byte s b }
{
    let first = s / FIRST_BYTE % BYTES;
    let k = (first ^ (b as u64)) as usize;
    (s % FIRST_BYTE * BYTES) ^ table[k]
}

fn by_table(s: u64, bytes: &[u8], table: &[u64]) -> u64
    requires { TableTo 256 table.now }
    ensures { result ≡ with_bytes s bytes.now }
{
    let mut sum = s;
    for b in bytes {
        sum = looked_up(sum, *b, table);
    }
    sum
}

// The sum over more bytes; at first it is 0.
pub fn with_bytes(s: u64, bytes: &[u8]) -> u64
    ensures { result ≡ with_bytes s bytes.now }
{
    let mut table = [0u64; 256];
    make_table(&mut table);
    by_table(s, bytes, &table)
}
