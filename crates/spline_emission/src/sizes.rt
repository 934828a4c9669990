// The work memory of an emission, by the spline's points and numbers.
use fit_slopes::sizes::SMALL_POINTS;
use fit_tables::{LARGE_NUMBERS, MOST_NUMBERS, SMALL_NUMBERS, USUAL_CHANNELS, WIDE_NUMBERS};
use layout::MOST_POINTS;

// The points of a middling spline at most, the curve's start among them.
pub const MIDDLE_POINTS: usize = 64;

pub const MIDDLE_NUMBERS: usize = USUAL_CHANNELS * MIDDLE_POINTS;

// What the tables take for each point: a knot and one more, or a chord sum and a time; for each of its numbers that number
// and its slope.
pub const SMALL_KNOTS: usize = 2 * SMALL_POINTS;

pub const MIDDLE_KNOTS: usize = 2 * MIDDLE_POINTS;

pub const MOST_KNOTS: usize = 2 * MOST_POINTS;

pub const SMALL_CONTROLS: usize = 2 * SMALL_NUMBERS;

pub const MIDDLE_CONTROLS: usize = 2 * MIDDLE_NUMBERS;

pub const LARGE_CONTROLS: usize = 2 * LARGE_NUMBERS;

pub const WIDE_CONTROLS: usize = 2 * WIDE_NUMBERS;

pub const MOST_CONTROLS: usize = 2 * MOST_NUMBERS;

// Samples whose halvings are remembered; beyond them the writing tests again. A kilobyte less each than
// with ten axes: sixteen take as much elsewhere on the stack.
pub const SMALL_LEFTS: usize = 1024;

pub const MIDDLE_LEFTS: usize = 7168;

pub const MOST_LEFTS: usize = 31744;
