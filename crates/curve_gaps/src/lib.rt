// A point and a chord, channel by channel: what each channel adds, and the squared distance over two and three.
#![tactic(auto)]

ghost use Rattle.std.specs.Prelude.{◌≡◌, ◌≤◌, ◌<◌, length};
ghost use Rattle.curve_gaps.specs.Gaps.{gap_of, toward_of, missed_of, foot_of, dist_two, dist_three};

// One channel of a point and a chord: the point's number, where the chord starts, and how far it goes.
#[derive(Clone, Copy)]
pub struct Gap {
    pub p: f64,
    pub a: f64,
    pub d: f64,
}

pub fn gap_at(p: &[f64], a: &[f64], b: &[f64], i: usize) -> Gap
    requires i_in_bounds { i < length a.now }
    requires a_in_bounds { (length a.now ≤ length b.now) × (length a.now ≤ length p.now) }
    ensures { result ≡ gap_of p.now a.now b.now i }
{
    Gap {
        p: p[i],
        a: a[i],
        d: b[i] - a[i],
    }
}

// What a channel adds to the product of the way to p and the chord.
pub fn toward(g: Gap) -> f64
    ensures { result ≡ toward_of g }
{
    (g.p - g.a) * g.d
}

// What a channel adds to the squared distance of p from the chord's point at t.
pub fn missed(g: Gap, t: f64) -> f64
    ensures { result ≡ missed_of g t }
{
    let m = g.p - (g.a + t * g.d);
    m * m
}

// Where on a chord of the squared length len2 the nearest point lies.
pub fn foot_of(dot: f64, len2: f64) -> f64
    ensures { result ≡ foot_of dot len2 }
{
    if len2 > 0.0 {
        floats::held_in(0.0, 1.0, dot / len2)
    } else {
        0.0
    }
}

// The squared distance of the point from the chord, over two channels.
pub fn deviation_two(x: Gap, y: Gap) -> f64
    ensures { result ≡ dist_two x y }
{
    let t = foot_of(0.0 + toward(x) + toward(y), 0.0 + x.d * x.d + y.d * y.d);
    0.0 + missed(x, t) + missed(y, t)
}

// Over three channels.
pub fn deviation_three(x: Gap, y: Gap, z: Gap) -> f64
    ensures { result ≡ dist_three x y z }
{
    let t = foot_of(
        0.0 + toward(x) + toward(y) + toward(z),
        0.0 + x.d * x.d + y.d * y.d + z.d * z.d,
    );
    0.0 + missed(x, t) + missed(y, t) + missed(z, t)
}
