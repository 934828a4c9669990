// ASPLINE: the slopes at the knots, for one channel of numbers; and the steps that CSPLINE takes too.
#![tactic(auto)]

pub mod akima;
pub mod sizes;
pub mod steps;
