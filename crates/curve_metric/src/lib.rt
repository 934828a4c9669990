// What a curve is measured by, and how a stretch of it is halved: definitions and laws, and the two numbers that code has of
// them.
#![tactic(auto)]

use layout::AXIS_CODES;

// A point stands in an array of this many numbers: whole sixteens.
pub const WIDEST: usize = (AXIS_CODES + 15) / 16 * 16;

// Halvings of a stretch at most.
pub const DEPTH: usize = 20;
