// The samples of a B-spline, knot span by knot span.
#![tactic(auto)]

pub mod count;
pub mod write;
