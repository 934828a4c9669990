// How many jobs of a night are in each lot.
#![tactic(auto)]

ghost use Rattle.std.specs.Prelude.{◌≡◌, eqb, ◌≤◌, length};
ghost use Rattle.night_tried.specs.Tried.{tries_of};
ghost use Rattle.night_lots.specs.Lot.{lot_of};
ghost use Rattle.night_jobs.specs.Jobs.{count_lot};

use night_lots::lot_of;
use night_tried::tries_of;
use tally_words::number_of;

fn is_in(mark: u64, word: u64, tolerances: u64, lot: u64) -> bool
    ensures { result ≡ eqb (lot_of mark (tries_of word) tolerances) lot }
{
    lot_of(mark, tries_of(word), tolerances) == lot
}

// How many of the first n jobs are in a lot.
pub fn count_lot(marks: &[u64], words: &[u64], n: usize, tolerances: u64, lot: u64) -> u64
    requires { (n ≤ length marks.now) × (n ≤ length words.now) }
    ensures { result ≡ count_lot marks.now words.now n tolerances lot }
{
    // as a chain, over both lists zipped and over the numbers below n, it was tried, and the proof did not close
    let mut r = 0;
    for i in 0..n {
        r += number_of(is_in(marks[i], words[i], tolerances, lot));
    }
    r
}
