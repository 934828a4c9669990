// What a picture is of, its axes and its counts; and the box of its points, one span for each axis.
#![tactic(auto)]

ghost use Rattle.std.specs.Prelude.{◌≡◌, ◌≤◌};
ghost use Rattle.picture_span.specs.Span.{widest, lower_of, no_span, widened, is_empty, extent};

// The widest box, in millionths of a millimetre.
const WIDEST: u64 = 2000000000000000;

// Rows of each class of a picture.
#[derive(Clone, Copy)]
pub struct Counts {
    pub rapid: u64,
    pub feed: u64,
    pub sample: u64,
    pub curved: u64,
}

// The codes of the axes of a picture: what goes to the right, and what goes up. Numbers, as `picture_pen::draw` takes each axis
// that has a cell (PlaneOk): an enum of three would take fewer.
#[derive(Clone, Copy)]
pub struct Plane {
    pub across: usize,
    pub up: usize,
}

// The places between which points lie: none where `to` is below `from`.
#[derive(Clone, Copy)]
pub struct Span {
    pub from: u64,
    pub to: u64,
}

// The box of a picture's points.
#[derive(Clone, Copy)]
pub struct Frame {
    pub across: Span,
    pub up: Span,
}

// The span of a box with no point.
pub fn no_span() -> Span
    ensures { result ≡ no_span }
{
    Span {
        from: WIDEST,
        to: 0,
    }
}

// The span with one more place.
#[tactic(auto, unfolding(crate::specs::Span::lower_of, crate::specs::Span::higher_of))]
pub fn widened(s: Span, p: u64) -> Span
    ensures { result ≡ widened s p }
{
    Span {
        from: s.from.min(p),
        to: s.to.max(p),
    }
}

pub fn is_empty(s: Span) -> bool
    ensures { result ≡ is_empty s }
{
    s.to < s.from
}

// How wide a span is, in millionths of a millimetre.
#[tactic(auto, unfolding(crate::specs::Span::extent, crate::specs::Span::lower_of))]
pub fn extent(s: Span) -> u64
    ensures { (result ≡ extent s) × (result ≤ widest) }
{
    s.to.saturating_sub(s.from).min(WIDEST)
}
