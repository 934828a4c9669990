// An arc's centre from its radius, and from what its block says.
#![tactic(auto)]

ghost use Rattle.std.specs.Prelude.{◌≡◌};
ghost use Rattle.arc_centre.specs.Centre.{cr_centre, centre_of, wide_centre};
ghost use Rattle.arc_centre.specs.Types.{centre_is, number_is, ends_is};

use arc_centre::{Centre, Ends, Fault, SMALL, side, wide};
use floats::TINY;

// The centre by CR.
fn by_radius(cw: bool, e: Ends, cr: f64) -> Result<Centre, Fault>
    ensures { centre_is result ≡ wide_centre (ends_is e) (cr_centre cw (ends_is e) cr) }
{
    let du = e.eu - e.su;
    let dv = e.ev - e.sv;
    let chord = root::root(du * du + dv * dv);
    if chord < TINY {
        return Err(Fault::Coincident);
    }
    let r = floats::abs(cr);
    let half = chord / 2.0;
    if r < half - SMALL {
        return Err(Fault::Short);
    }
    let h = root::root(floats::larger(r * r - half * half, 0.0));
    let far = side(cw, cr) * h;
    wide(
        e,
        (e.su + e.eu) / 2.0 + far * (-dv / chord),
        (e.sv + e.ev) / 2.0 + far * (du / chord),
    )
}

// The centre by the offsets i and j, else by CR.
pub fn find_centre(
    cw: bool,
    e: Ends,
    i: Option<f64>,
    j: Option<f64>,
    cr: Option<f64>,
) -> Result<Centre, Fault>
    ensures { centre_is result ≡ wide_centre (ends_is e) (centre_of cw (ends_is e) (number_is i) (number_is j) (number_is cr)) }
{
    if i.is_some() || j.is_some() {
        return wide(e, e.su + i.unwrap_or(0.0), e.sv + j.unwrap_or(0.0));
    }
    match cr {
        Some(r) => by_radius(cw, e, r),
        None => Err(Fault::Missing),
    }
}
