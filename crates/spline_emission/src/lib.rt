// The emission of a held spline, in work memory of five sizes.
#![tactic(auto)]

pub mod memory;
pub mod sizes;
