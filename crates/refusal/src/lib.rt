// What a call is refused for.
#![tactic(auto)]

ghost use Rattle.std.specs.Prelude.{◌≡◌};
ghost use Rattle.refusal.specs.Codes.{refusal_code};

// The reasons of rules 2.5 to 2.16 and 9.6, in the order of their numbers.
#[derive(Clone, Copy, PartialEq, Eq)]
pub enum Refusal {
    BadTolerance = 1,
    BadAxis = 2,
    BadNumber = 3,
    BadRow = 4,
    TooManyTurns = 5,
    StoreFull = 6,
    TooFewPlaces = 7,
    StoreTooShort = 8,
    BadState = 9,
    BadText = 10,
    TallyFull = 11,
}

// The number by which a reply says it.
pub fn refusal_code(refusal: Refusal) -> u64
    ensures { result ≡ refusal_code refusal }
{
    refusal as u64
}
