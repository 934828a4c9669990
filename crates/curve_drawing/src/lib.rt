// What a curve comes to, as definitions alone, and the numbers that it is drawn by.
#![tactic(auto)]

use motion::Kind;

// A curve to draw: its kind, its degree where it is a B-spline, its n points of ch numbers each, and how far a chord may
// stray from it.
#[derive(Clone, Copy)]
pub struct Drawing {
    pub kind: Kind,
    pub degree: usize,
    pub n: usize,
    pub ch: usize,
    pub tol: f64,
}
