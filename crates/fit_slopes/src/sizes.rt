// Sizes that are chosen.

// Up to as many points use smaller arrays: most splines have few, and a long array takes time to clear.
pub const SMALL_POINTS: usize = 16;
