// The words of the row text, from one table that the reader and the writer share: a motion word's place in it
// is its code.
#![tactic(auto)]

ghost use Rattle.std.specs.Prelude.{◌≡◌, ◌+◌, ◌-◌, ◌*◌, ◌/◌, ◌%◌, ◌^◌, ◌≤◌, ◌<◌, length};
ghost use Rattle.csv_figures.specs.Out.{Wrote};
ghost use Rattle.csv_words.specs.Words.{word_at, plane_text, place_of, motion_of, plane_of};
ghost use Rattle.csv_words.specs.Packed.{pack, word_number, chars};

// Each word's bytes and then its length in the three lowest bits: none, the motion words in the order of their
// codes, and the plane words.
const WORDS: [u64; 19] = [
    0x0, // none
    0x23982, // G0
    0x2398a, // G1
    0x23992, // G2
    0x2399a, // G3
    0x20a9a82624a722f, // ASPLINE
    0x2129a82624a722f, // BSPLINE
    0x21a9a82624a722f, // CSPLINE
    0x21a4a83, // CIP
    0x21aa2, // CT
    0x2827a62cc, // POLY
    0x239999b, // G33
    0x23999a3, // G34
    0x23999ab, // G35
    0x24a72b21abd, // INVCW
    0x24a72b21a1abe, // INVCCW
    0x23989bb, // G17
    0x23989c3, // G18
    0x23989cb, // G19
];

fn entry(i: usize) -> u64
    requires { i < 19 }
    ensures { result ≡ word_number (word_at i) }
{
    WORDS[i]
}

// The bytes of s as one number.
fn packed(s: &[u8]) -> u64
    requires { length s.now ≤ 7 }
    ensures { (result ≡ pack 0 s.now) × (result < 2 ^ 56) }
{
    let mut n: u64 = 0;
    for b in s {
        n = n * 256 + u64::from(*b);
    }
    n
}

// The first place of s among `count` words from `from` on.
fn find(s: &[u8], from: usize, count: usize) -> Option<usize>
    requires { from + count ≤ 19 }
    ensures { result ≡ place_of from count s.now }
{
    if s.len() > 7 {
        return None;
    }
    let number = packed(s) * 8 + s.len() as u64;
    for i in from..from + count {
        if entry(i) == number {
            return Some(i);
        }
    }
    None
}

// The code of the motion word s.
pub fn read_motion(s: &[u8]) -> Option<usize>
    ensures { result ≡ motion_of s.now }
{
    find(s, 0, 16)
}

// The code of the plane word s.
pub fn read_plane(s: &[u8]) -> Option<usize>
    ensures { result ≡ plane_of s.now }
{
    if s.is_empty() {
        return Some(0);
    }
    let i = find(s, 16, 3)?;
    Some(i + 1)
}

// The byte of v at 256^k.
fn byte(v: u64, k: usize) -> u8
    requires { k < 8 }
    ensures { result ≡ v / 2 ^ (8 * k) % 256 }
{
    let d = 8 * k;
    ((v >> d) % 256) as u8
}

// Stores the k last bytes of v from n on.
fn put_chars(out: &mut [u8], n: usize, k: usize, v: u64) -> usize
    requires { (n + k ≤ length out.old) × (k ≤ 7) }
    ensures { Wrote out.old n (chars k v) out.new result }
{
    for i in 0..k {
        out[n + i] = byte(v, k - 1 - i);
    }
    n + k
}

// Stores the word at the place i of the table from n on.
fn put_word(out: &mut [u8], n: usize, i: usize) -> usize
    requires { (n + 7 ≤ length out.old) × (i < 19) }
    ensures { Wrote out.old n (word_at i) out.new result }
{
    let w = entry(i);
    put_chars(out, n, (w % 8) as usize, w / 8)
}

// Stores the motion word of a code from n on.
pub fn put_motion(out: &mut [u8], n: usize, code: usize) -> usize
    requires { (n + 7 ≤ length out.old) × (code < 16) }
    ensures { Wrote out.old n (word_at code) out.new result }
{
    put_word(out, n, code)
}

// Stores the plane word of a code from n on.
pub fn put_plane(out: &mut [u8], n: usize, code: usize) -> usize
    requires { (n + 7 ≤ length out.old) × (code < 20) }
    ensures { Wrote out.old n (plane_text code) out.new result }
{
    put_word(out, n, code.saturating_sub(1))
}
