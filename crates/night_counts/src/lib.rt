// How many jobs of a night have a bit in their mark.
#![tactic(auto)]

ghost use Rattle.std.specs.Prelude.{◌≡◌, ◌<◌, ◌≤◌, length};
ghost use Rattle.night_counts.specs.Counts.{count_with};

use row_cells::has_bit;

// How many of the first n jobs have bit b in their mark.
pub fn count_with(marks: &[u64], n: usize, b: u64) -> u64
    requires { (n ≤ length marks.now) × (b < 64) }
    ensures { (result ≡ count_with marks.now n b) × (result ≤ n) }
{
    marks[..n].iter().filter(|mark| has_bit(**mark, b)).count() as u64
}
