// De Boor's triangle of degree 4, written out: the mix of two triangles of degree 3, of which the second lies one row up.
ghost use Rattle.std.specs.Prelude.{◌≡◌, ◌≤◌, ◌<◌, ◌+◌, length};
ghost use Rattle.bspline_low.specs.Low.{top4, FourthIn};

use crate::low::{Shares, mix, share_at, shares_in, top_three};

#[derive(Clone, Copy)]
pub struct Fourth {
    pub low: Shares,
    pub high: Shares,
    pub top: f64,
}

// The shares in knot span k.
pub fn fourth_in(ks: &[f64], u: f64, k: usize) -> Fourth
    requires { (4 ≤ k) × (k + 4 < length ks.now) }
    ensures { FourthIn ks.now u 4 k result }
{
    let s = shares_in(ks, u, 4, k);
    Fourth {
        low: s,
        high: Shares {
            a1: s.a2,
            a2: s.a3,
            a3: share_at(ks, u, 4, k, 1, 4),
            b2: s.b3,
            b3: share_at(ks, u, 4, k, 2, 4),
            c3: share_at(ks, u, 4, k, 3, 4),
        },
        top: share_at(ks, u, 4, k, 4, 4),
    }
}

pub fn top_four(s: Fourth, x: &[f64], i: usize) -> f64
    requires { i + 4 < length x.now }
    ensures { result ≡ top4 s x.now i }
{
    mix(s.top, top_three(s.low, x, i), top_three(s.high, x, i + 1))
}
