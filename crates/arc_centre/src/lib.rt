// The centre of an arc by offsets, and the radii: warned where one is too small.
#![tactic(auto)]

ghost use Rattle.std.specs.Prelude.{◌≡◌};
ghost use Rattle.arc_centre.specs.Centre.{side_of, wide_centre, radius};
ghost use Rattle.arc_centre.specs.Centre as Spec;
ghost use Rattle.arc_centre.specs.Types.{centre_is, ends_is};

// Below it a radius is too small, and start and end agree.
pub const SMALL: f64 = 1e-9;

// Start and end on the two plane axes.
#[derive(Clone, Copy)]
pub struct Ends {
    pub su: f64,
    pub sv: f64,
    pub eu: f64,
    pub ev: f64,
}

// Where the centre is.
#[derive(Clone, Copy)]
pub struct Centre {
    pub u: f64,
    pub v: f64,
}

// Why there is none.
#[derive(Clone, Copy)]
pub enum Fault {
    Coincident,
    Short,
    Missing,
    Small,
}

// 1 for a centre left of the chord from start to end, -1 for one right of it.
pub fn side(cw: bool, cr: f64) -> f64
    ensures { result ≡ side_of cw cr }
{
    if cr < 0.0 {
        if cw { 1.0 } else { -1.0 }
    } else {
        if cw { -1.0 } else { 1.0 }
    }
}

pub fn radius(u: f64, v: f64, cu: f64, cv: f64) -> f64
    ensures { result ≡ radius u v cu cv }
{
    root::root((u - cu) * (u - cu) + (v - cv) * (v - cv))
}

// The centre, where neither radius is too small.
pub fn wide(e: Ends, cu: f64, cv: f64) -> Result<Centre, Fault>
    ensures { centre_is result ≡ wide_centre (ends_is e) (Spec.centred cu cv) }
{
    if radius(e.su, e.sv, cu, cv) < SMALL {
        return Err(Fault::Small);
    }
    if radius(e.eu, e.ev, cu, cv) < SMALL {
        return Err(Fault::Small);
    }
    Ok(Centre { u: cu, v: cv })
}
