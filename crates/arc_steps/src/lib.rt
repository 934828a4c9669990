// The steps along an arc: how many rows it has.
#![tactic(auto)]

ghost use Rattle.std.specs.Prelude.{◌≡◌};
ghost use Rattle.arc_numbers.specs.Arc.{step_of, wanted_of, count_of};
ghost use Rattle.arc_numbers.specs.Types.{arc_is};

use floats::TINY;

// Rows of one arc at most.
pub const MOST_ROWS: u64 = 100000;

// The angle between two samples.
fn step(c: arc_numbers::Arc) -> f64
    ensures { result ≡ step_of (arc_is c) }
{
    2.0 * trig_atan::acos(floats::held_in(-1.0, 1.0, 1.0 - c.tol / floats::larger(c.rs, c.re)))
}

// The rows that the tolerance asks for.
pub fn wanted(c: arc_numbers::Arc) -> u64
    ensures { result ≡ wanted_of (arc_is c) }
{
    let s = step(c);
    if TINY < s {
        whole::ceil_count(floats::abs(c.sweep) / s)
    } else {
        1
    }
}

// The rows that are made.
pub fn count(wanted: u64) -> u64
    ensures { result ≡ count_of wanted }
{
    if wanted < 1 {
        1
    } else if MOST_ROWS < wanted {
        MOST_ROWS
    } else {
        wanted
    }
}
