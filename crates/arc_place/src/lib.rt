// The place of an arc's sample.
#![tactic(auto)]

ghost use Rattle.arc_numbers.specs.Types.{arc_is};
ghost use Rattle.arc_place.specs.Place.{PointAt};

#[derive(Clone, Copy)]
pub struct Point {
    pub u: f64,
    pub v: f64,
}

// The place at the fraction f of the arc.
pub fn sample(c: arc_numbers::Arc, f: f64) -> Point
    ensures { PointAt (arc_is c) f result }
{
    let a = trig::sincos(c.from + c.sweep * f);
    let r = c.rs + (c.re - c.rs) * f;
    Point {
        u: c.cu + r * a.cos,
        v: c.cv + r * a.sin,
    }
}
