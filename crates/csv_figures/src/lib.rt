// Numbers and source lines out: their text, stored into a slice from a place on.
#![tactic(auto)]

ghost use Rattle.std.specs.Prelude.{[], ◌∷◌, ◌+◌, ◌≤◌, ◌<◌, length};
ghost use Rattle.csv_figures.specs.Out.{Wrote, Put};
ghost use Rattle.csv_figures.specs.Write.{figures, whole_text, millionths_text};

// Stores b at n, and answers the place after it.
pub fn put_byte(out: &mut [u8], n: usize, b: u8) -> usize
    requires { n < length out.old }
    ensures { Wrote out.old n (b ∷ []) out.new result }
{
    out[n] = b;
    n + 1
}

// Stores the k last digits of v from n on, the last one first.
fn put_figures(out: &mut [u8], n: usize, k: usize, v: u64) -> usize
    requires { n + k ≤ length out.old }
    ensures { Wrote out.old n (figures k v) out.new result }
{
    let mut rest = v;
    for j in (0..k).rev() {
        out[n + j] = csv_digits::last_figure(rest);
        rest /= 10;
    }
    n + k
}

// Stores v without leading zeros from n on.
pub fn put_whole(out: &mut [u8], n: usize, v: u64) -> usize
    requires { n + 10 ≤ length out.old }
    ensures { Wrote out.old n (whole_text v) out.new result }
{
    put_figures(out, n, csv_digits::digits(v), v)
}

// Stores v millionths from n on, with six decimals.
pub fn put_millionths(out: &mut [u8], n: usize, v: u64) -> usize
    requires { (n + 16 ≤ length out.old) × (v < 1000000000000000) }
    ensures { Wrote out.old n (millionths_text v) out.new result }
{
    let a = put_whole(out, n, v / 1000000);
    let b = put_byte(out, a, b'.');
    put_figures(out, b, 6, v)
}

// Stores x from n on, with six decimals, and answers the place after it; none for what rounds to 10^9 or more in size.
pub fn put_number(out: &mut [u8], n: usize, x: f64) -> Option<usize>
    requires { n + 17 ≤ length out.old }
    ensures { Put x out.old n out.new result }
{
    let v = csv_decimal::in_millionths(x);
    if v >= 1000000000000000 {
        return None;
    }
    if x < 0.0 && v > 0 {
        let a = put_byte(out, n, b'-');
        return Some(put_millionths(out, a, v));
    }
    Some(put_millionths(out, n, v))
}
