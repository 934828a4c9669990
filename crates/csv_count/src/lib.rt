// The refusal of row text, and how its physical lines are counted.
#![tactic(auto)]

ghost use Rattle.std.specs.Prelude.{◌≡◌};
ghost use Rattle.csv_count.specs.Count.{next_line};

// The refusal of text, and of a row whose numbers have none.
pub const BAD_TEXT: u64 = 10;

// Physical lines are counted up to this one.
pub const LAST_LINE: u64 = 9999999999;

// The number of the next line: one more, up to the last that is counted.
pub fn next_number(physical: u64) -> u64
    ensures { result ≡ next_line physical }
{
    if physical < LAST_LINE {
        return physical + 1;
    }
    physical
}
