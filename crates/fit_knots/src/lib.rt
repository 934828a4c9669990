// ASPLINE and CSPLINE: curves of numbers through the points. What a fit is, which points it keeps, how it lies in memory, and the
// laws of it; no code.
#![tactic(auto)]
