// How often a job of a night was tried, and by which file.
#![tactic(auto)]

ghost use Rattle.std.specs.Prelude.{◌≡◌};
ghost use Rattle.night_tried.specs.Tried.{tried_word, tries_of, same_file};

// What is kept of a job's tries is one word: the checksum of their file, which is below the first of these, times the other,
// and how many there are, which is below the other.
const SUMS: u64 = 1 << 32;

const COUNTS: u64 = 32;

#[tactic(auto, unfolding(crate::specs::Tried::tried_word))]
pub fn tried_word(sum: u64, tries: u64) -> u64
    ensures { result ≡ tried_word sum tries }
{
    sum % SUMS * COUNTS + tries % COUNTS
}

#[tactic(auto, unfolding(crate::specs::Tried::tries_of))]
pub fn tries_of(word: u64) -> u64
    ensures { result ≡ tries_of word }
{
    word % COUNTS
}

// Whether a try whose file has this checksum is a further one of the job with this word.
#[tactic(auto, unfolding(crate::specs::Tried::same_file, crate::specs::Tried::tries_of))]
pub fn same_file(word: u64, sum: u64) -> bool
    ensures { result ≡ same_file word sum }
{
    tries_of(word) == 0 || word / COUNTS == sum
}
