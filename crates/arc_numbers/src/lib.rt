// The numbers of an arc about its centre: radii, start angle and sweep.
#![tactic(auto)]

ghost use Rattle.std.specs.Prelude.{◌≡◌};
ghost use Rattle.arc_centre.specs.Types.{number_is, ends_is};
ghost use Rattle.arc_numbers.specs.Arc.{agree, sweep_left, sweep_of, turned, arc_of};
ghost use Rattle.arc_numbers.specs.Types.{arc_is};

use arc_centre::SMALL;
use floats::TINY;
use trig::TAU;

// Centre, radii at start and end, start angle, sweep, tolerance.
#[derive(Clone, Copy)]
pub struct Arc {
    pub cu: f64,
    pub cv: f64,
    pub rs: f64,
    pub re: f64,
    pub from: f64,
    pub sweep: f64,
    pub tol: f64,
}

// Start and end are one point: a full circle.
fn agree(e: arc_centre::Ends) -> bool
    ensures { result ≡ agree (ends_is e) }
{
    floats::abs(e.eu - e.su) < SMALL && floats::abs(e.ev - e.sv) < SMALL
}

// The sweep of G3, by the difference d of the two angles.
fn sweep_left(full: bool, d: f64) -> f64
    ensures { result ≡ sweep_left full d }
{
    let s = trig::rem_euclid_tau(d);
    if s < TINY {
        if full { TAU } else { s }
    } else {
        s
    }
}

fn sweep(cw: bool, full: bool, d: f64) -> f64
    ensures { result ≡ sweep_of cw full d }
{
    let s = sweep_left(full, d);
    if cw {
        let t = s - TAU;
        if full {
            if -TINY < t { -TAU } else { t }
        } else {
            t
        }
    } else {
        s
    }
}

// The sweep s with the whole turns of TURN.
fn turned(cw: bool, s: f64, turn: Option<f64>) -> f64
    ensures { result ≡ turned cw s (number_is turn) }
{
    match turn {
        Some(t) => {
            let n = std::num::nearest_u64_to_f64(whole::half_up_count(t));
            if cw { s + -TAU * n } else { s + TAU * n }
        }
        None => s,
    }
}

pub fn arc_of(tol: f64, cw: bool, e: arc_centre::Ends, cu: f64, cv: f64, turn: Option<f64>) -> Arc
    ensures { arc_is result ≡ arc_of tol cw (ends_is e) cu cv (number_is turn) }
{
    let a = trig_atan::atan2(e.sv - cv, e.su - cu);
    let b = trig_atan::atan2(e.ev - cv, e.eu - cu);
    Arc {
        cu,
        cv,
        rs: arc_centre::radius(e.su, e.sv, cu, cv),
        re: arc_centre::radius(e.eu, e.ev, cu, cv),
        from: a,
        sweep: turned(cw, sweep(cw, agree(e), b - a), turn),
        tol,
    }
}
