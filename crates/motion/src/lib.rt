// What a motion word says: the one place that judges its number.
#![tactic(auto)]

ghost use Rattle.std.specs.Prelude.{◌≡◌};
ghost use Rattle.motion.specs.Motion.{kind_of, spline_kind, other_kind, basis_kind, cubic_kind, curve_kind, is_rapid};

// The word of a straight move as fast as the machine goes, and that of one at feed.
const G0: u64 = 1;

pub const G1: u64 = 2;

pub const LAST_MOTION: u64 = 31;

#[derive(Clone, Copy)]
pub enum Kind {
    Same,
    Linear,
    Clockwise,
    Counter,
    Akima,
    Basis,
    Cubic,
    Other,
    Refused,
}

#[tactic(auto, unfolding(crate::specs::Motion::kind_of))]
pub fn kind_of(motion: u64) -> Kind
    ensures { result ≡ kind_of motion }
{
    match motion {
        0 => Kind::Same,
        1..=2 => Kind::Linear,
        3 => Kind::Clockwise,
        4 => Kind::Counter,
        5 => Kind::Akima,
        6 => Kind::Basis,
        7 => Kind::Cubic,
        8..=31 => Kind::Other,
        _ => Kind::Refused,
    }
}

// Whether a block of this kind is buffered.
pub fn is_spline(kind: Kind) -> bool
    ensures { result ≡ spline_kind kind }
{
    matches!(kind, Kind::Akima | Kind::Basis | Kind::Cubic)
}

// Whether the word is a curve's that goes out unchanged.
pub fn is_other(kind: Kind) -> bool
    ensures { result ≡ other_kind kind }
{
    matches!(kind, Kind::Other)
}

pub fn is_basis(kind: Kind) -> bool
    ensures { result ≡ basis_kind kind }
{
    matches!(kind, Kind::Basis)
}

pub fn is_cubic(kind: Kind) -> bool
    ensures { result ≡ cubic_kind kind }
{
    matches!(kind, Kind::Cubic)
}

// Whether a block of this kind does not go straight.
pub fn is_curve(kind: Kind) -> bool
    ensures { result ≡ curve_kind kind }
{
    !matches!(kind, Kind::Same | Kind::Linear)
}

// Whether the word is a rapid move's.
pub fn is_rapid(motion: u64) -> bool
    ensures { result ≡ is_rapid motion }
{
    motion == G0
}
