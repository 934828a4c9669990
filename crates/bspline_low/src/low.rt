// De Boor's triangle of degrees 1 to 3, written out: no work memory, and every channel takes the shares once computed.
ghost use Rattle.std.specs.Prelude.{◌≡◌, ◌≤◌, ◌<◌, ◌+◌, length};
ghost use Rattle.bspline_tables.specs.Basis.{share};
ghost use Rattle.bspline_low.specs.Low.{mix_of, top1, top2, top3, top_of, SharesIn};

// Knots closer than this are one.
const NO_STEP: f64 = 1e-30;

// The share of row j at level r, in knot span k.
pub fn share_at(ks: &[f64], t: f64, p: usize, k: usize, r: usize, j: usize) -> f64
    requires { (1 ≤ r) × ((r ≤ p) × ((p ≤ k) × ((j ≤ p) × (k + p < length ks.now)))) }
    ensures { result ≡ share ks.now t p k r j }
{
    let i = j + k - p;
    let e = i + p + 1 - r;
    let low = ks[i];
    let wide = ks[e] - low;
    if floats::abs(wide) < NO_STEP {
        0.0
    } else {
        (t - low) / wide
    }
}

// The shares of the rows that count: a of level 1, b of level 2, c of level 3.
#[derive(Clone, Copy)]
pub struct Shares {
    pub a1: f64,
    pub a2: f64,
    pub a3: f64,
    pub b2: f64,
    pub b3: f64,
    pub c3: f64,
}

// The shares of levels 1 to 3 in knot span k; those that degree p has no row for are 0.
pub fn shares_in(ks: &[f64], u: f64, p: usize, k: usize) -> Shares
    requires { (1 ≤ p) × ((p ≤ k) × (k + p < length ks.now)) }
    ensures { SharesIn ks.now u p k result }
{
    let a1 = share_at(ks, u, p, k, 1, 1);
    if p == 1 {
        return Shares {
            a1,
            a2: 0.0,
            a3: 0.0,
            b2: 0.0,
            b3: 0.0,
            c3: 0.0,
        };
    }
    let a2 = share_at(ks, u, p, k, 1, 2);
    let b2 = share_at(ks, u, p, k, 2, 2);
    if p == 2 {
        return Shares {
            a1,
            a2,
            a3: 0.0,
            b2,
            b3: 0.0,
            c3: 0.0,
        };
    }
    Shares {
        a1,
        a2,
        a3: share_at(ks, u, p, k, 1, 3),
        b2,
        b3: share_at(ks, u, p, k, 2, 3),
        c3: share_at(ks, u, p, k, 3, 3),
    }
}

// A row of the next level, from the row below it and itself.
pub fn mix(share: f64, low: f64, high: f64) -> f64
    ensures { result ≡ mix_of share low high }
{
    (1.0 - share) * low + share * high
}

fn top_one(s: Shares, x: &[f64], i: usize) -> f64
    requires { i + 1 < length x.now }
    ensures { result ≡ top1 s x.now i }
{
    mix(s.a1, x[i], x[i + 1])
}

fn top_two(s: Shares, x: &[f64], i: usize) -> f64
    requires { i + 2 < length x.now }
    ensures { result ≡ top2 s x.now i }
{
    let mid = x[i + 1];
    mix(s.b2, mix(s.a1, x[i], mid), mix(s.a2, mid, x[i + 2]))
}

// The top of the triangle over the rows x[i], .., x[i + p].
pub fn top(s: Shares, p: usize, x: &[f64], i: usize) -> f64
    requires { (1 ≤ p) × ((p ≤ 2) × (i + p < length x.now)) }
    ensures { result ≡ top_of s p x.now i }
{
    if p == 1 {
        return top_one(s, x, i);
    }
    top_two(s, x, i)
}

pub fn top_three(s: Shares, x: &[f64], i: usize) -> f64
    requires { i + 3 < length x.now }
    ensures { result ≡ top3 s x.now i }
{
    let low = x[i + 1];
    let high = x[i + 2];
    let mid = mix(s.a2, low, high);
    let below = mix(s.b2, mix(s.a1, x[i], low), mid);
    let above = mix(s.b3, mid, mix(s.a3, high, x[i + 3]));
    mix(s.c3, below, above)
}
