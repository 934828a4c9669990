// How the box of a picture's points is fitted into the area of the picture.
#![tactic(auto)]

ghost use Rattle.std.specs.Prelude.{◌≡◌, ◌≤◌, ◌<◌};
ghost use Rattle.picture_span.specs.Span.{widest, extent};
ghost use Rattle.picture_fit.specs.Fit.{area_wide, least, at_least, scale_by, drawn, fit_by, fit_of, most_scale, Small};

use picture_span::{Span, extent};

// The picture's width in its own units, and the area of the path in it: how wide and high, and how far down its middle is.
const WIDE: u64 = 1000;

const AREA_WIDE: u64 = 940;

const AREA_HIGH: u64 = 820;

const MIDDLE: u64 = 440;

// Smaller boxes are not made larger than these would be: what draws a picture has its limits.
const LEAST: u64 = 100;

// A scale in millionths of a unit a millimetre, for boxes below a millimetre; for others in parts 10^-4 of that.
const MILLIMETRE: u64 = 1000000;

const UNIT: u64 = 1000000000000;

const FINE_UNIT: u64 = 10000000000000000;

// A scale: a number of millionths, of which one stands for a unit a millimetre, or where it is fine for 10^-4 of that. A struct,
// as the theorem `in_area` and the clauses speak of the number whether it is fine or not.
#[derive(Clone, Copy)]
pub struct Scale {
    pub millionths: u64,
    pub fine: bool,
}

// w, or LEAST where it is less.
#[tactic(auto, unfolding(crate::specs::Fit::at_least))]
fn at_least(w: u64) -> u64
    ensures { (result ≡ at_least w) × (least ≤ result) }
{
    w.max(LEAST)
}

// The scale at which w millionths of a millimetre are `units` wide.
fn scale_by(units: u64, w: u64) -> Scale
    requires { units ≤ area_wide }
    ensures { (result ≡ scale_by units w) × (result.millionths < most_scale) }
{
    let v = at_least(w);
    if v < MILLIMETRE {
        return Scale {
            millionths: units * UNIT / v,
            fine: false,
        };
    }
    Scale {
        millionths: units * FINE_UNIT / v,
        fine: true,
    }
}

// How many units v is drawn over, where w is drawn over `units`.
#[tactic(auto, unfolding(crate::specs::Fit::drawn, picture_span::specs::Span::lower_of))]
fn drawn(units: u64, v: u64, w: u64) -> u64
    requires { (units ≤ area_wide) × (v ≤ widest) }
    ensures { (result ≡ drawn units v w) × (result ≤ area_wide) }
{
    (units * v / at_least(w)).min(AREA_WIDE)
}

// Where the box is drawn: its scale, and the place of its lower left corner in the picture.
#[derive(Clone, Copy)]
pub struct Fit {
    pub scale: Scale,
    pub left: u64,
    pub base: u64,
}

// The fit of a box of w by h whose side is drawn over `units`, in the middle of the area.
#[tactic(auto, unfolding(crate::specs::Fit::fit_by))]
fn fit_by(units: u64, side: u64, w: u64, h: u64) -> Fit
    requires { (units ≤ area_wide) × ((w ≤ widest) × (h ≤ widest)) }
    ensures { (result ≡ fit_by units side w h) × Small result }
{
    let scale = scale_by(units, side);
    Fit {
        scale,
        left: (WIDE - drawn(units, w, side)) / 2,
        base: MIDDLE + drawn(units, h, side) / 2,
    }
}

// The fit of a box of w by h.
#[tactic(auto, unfolding(crate::specs::Fit::fit_of))]
fn fitted(w: u64, h: u64) -> Fit
    requires { (w ≤ widest) × (h ≤ widest) }
    ensures { (result ≡ fit_of w h) × Small result }
{
    if w * AREA_HIGH < h * AREA_WIDE {
        return fit_by(AREA_HIGH, h, w, h);
    }
    fit_by(AREA_WIDE, w, w, h)
}

// The fit of the box of two spans.
pub fn fit_of(across: Span, up: Span) -> Fit
    ensures { (result ≡ fit_of (extent across) (extent up)) × Small result }
{
    fitted(extent(across), extent(up))
}
