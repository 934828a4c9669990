// The walks over a stretch of a curve of either kind, one that counts and one that writes: what they take and give, what they
// count, write and remember, and the laws of it. The walks themselves stand above.
#![tactic(auto)]

// The points of a fit that were kept, and the piece that an evaluation looks in first: it may be any, and no point depends
// on it.
#[derive(Clone, Copy)]
pub struct Kept {
    pub points: usize,
    pub piece: usize,
}

// What a curve's tables hold: a B-spline of this degree, or a fit.
#[derive(Clone, Copy)]
pub enum Form {
    Basis(usize),
    Fit(Kept),
}

// A curve beside its tables: n points of ch numbers each, and how far a chord may stray from it.
#[derive(Clone, Copy)]
pub struct Shape {
    pub n: usize,
    pub ch: usize,
    pub tol: f64,
    pub form: Form,
}

// A stretch of a curve, by its first time and its last, and how often it may still be halved.
#[derive(Clone, Copy)]
pub struct Interval {
    pub t0: f64,
    pub t1: f64,
    pub left: usize,
}

// How far a count has come: the owner of the last sample, and the samples so far.
#[derive(Clone, Copy)]
pub struct Reached {
    pub owner: usize,
    pub sample: usize,
}

// How far a writing has come: the words and the samples so far.
#[derive(Clone, Copy)]
pub struct Place {
    pub word: usize,
    pub sample: usize,
}
