// The piece of a prepared fit that t lies in, by halving or by a hint.
#![tactic(auto)]

ghost use Rattle.std.specs.Prelude.{◌≡◌, true, ◌≤◌, ◌<◌, ◌+◌, length};
ghost use Rattle.fit_knots.specs.Fit.{piece_of};
ghost use Rattle.fit_knots.specs.Memory.{Rising};

// The first piece whose end t does not pass, by halving.
pub fn piece(ts: &[f64], n: usize, t: f64) -> usize
    requires le_n { (2 ≤ n) × (n ≤ length ts.now) }
    requires rising { Rising ts.now n }
    ensures { (result ≡ piece_of ts.now n t) × (result + 1 < n) }
{
    ts[1..n - 1].partition_point(|end| !(t <= *end))
}

// Whether w is that piece.
fn is_piece(ts: &[f64], n: usize, t: f64, w: usize) -> bool
    requires w_bound { (w + 1 < n) × (n ≤ length ts.now) }
    requires rising { Rising ts.now n }
    ensures { result ≡ true → w ≡ piece_of ts.now n t }
{
    if w > 0 && t <= ts[w] {
        return false;
    }
    t <= ts[w + 1] || w + 2 == n
}

// That piece, found at once where it is the hint, which may be any number.
pub fn piece_near(ts: &[f64], n: usize, t: f64, hint: usize) -> usize
    requires le_n { (2 ≤ n) × (n ≤ length ts.now) }
    requires rising { Rising ts.now n }
    ensures { (result ≡ piece_of ts.now n t) × (result + 1 < n) }
{
    if hint < n - 1 && is_piece(ts, n, t, hint) {
        return hint;
    }
    piece(ts, n, t)
}
