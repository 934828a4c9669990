// Where a line ends: the search for the first LF.
#![tactic(auto)]

ghost use Rattle.std.specs.Prelude.{◌+◌, ◌≤◌, length, ◌≡◌, false, position, ◌==◌};
ghost use Rattle.text_cut.specs.Cut.{lf, cut, between};
ghost use Rattle.text_cut.specs.Seek.{near, Free, Seeking};

// How many bytes are looked at together.
const NEAR: usize = 16;

// One byte more: whether an LF was seen.
fn seen_with(seen: bool, b: u8) -> bool
    ensures { result ≡ false → (seen ≡ false) × (b ≡ lf → ⊥) }
{
    if b == b'\n' {
        return true;
    }
    seen
}

// Whether an LF is among the NEAR bytes of buf from `at` on. All of them are looked at and nothing else is asked, so that
// it takes a few instructions for all of them.
fn lf_near(buf: &[u8], at: usize) -> bool
    requires { at + near ≤ length buf.now }
    ensures { result ≡ false → Free buf.now at near }
{
    let mut seen = false;
    for b in &buf[at..at + NEAR] {
        seen = seen_with(seen, *b);
    }
    seen
}

// A place from which on the first LF is found, as from `at` on: NEAR bytes further, and again, as long as none is among them.
fn far(buf: &[u8], at: usize, end: usize) -> usize
    requires { (at ≤ end) × (end ≤ length buf.now) }
    ensures { Seeking buf.now at end result }
{
    let mut i = at;
    // No `for`: a turn goes NEAR bytes further, as long as so many are left, and the place where it stops is the answer.
    while end - i >= NEAR {
        if lf_near(buf, i) {
            return i;
        }
        i += NEAR;
    }
    i
}

// The place of the first LF.
fn first_lf(bytes: &[u8]) -> Option<usize>
    ensures { result ≡ position (λ b. b == lf) bytes.now }
{
    bytes.iter().position(|b| *b == b'\n')
}

// The place behind the first LF of buf from `at` on and below `end`, or `end` + 1 where there is none.
pub fn line_end(buf: &[u8], at: usize, end: usize) -> usize
    requires { (at ≤ end) × (end ≤ length buf.now) }
    ensures { result ≡ at + cut (between buf.now at end) }
{
    let i = far(buf, at, end);
    match first_lf(&buf[i..end]) {
        Some(k) => i + k + 1,
        None => end + 1,
    }
}
